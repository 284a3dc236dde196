// A clause's line of a position sheet.
#![tactic(auto)]

ghost use Rattle.std.specs.Prelude.{◌≡◌, ◌≤◌, length};
ghost use Rattle.text.specs.Read.{Part};
ghost use Rattle.utf8.specs.Alone.{text_limit};
ghost use Rattle.sheet.specs.Places.{SheetOk};
ghost use Rattle.sheet_clause.specs.Line.{kind_number, ClauseLineAs};

use sheet::{CLAUSE_LIMIT, SheetAt, SheetError};
use sheet_numbers::{more_clauses, put_clause, with_counts};
use signal::SignalError;
use text::{PIPE, find};

// The kinds of clause.
#[derive(Clone, Copy)]
pub enum ClauseKind {
    All,
    Any,
    Not,
}

impl ClauseKind {
    // The number that is kept.
    fn number(self) -> u16
        ensures { result ≡ kind_number self }
    {
        self as u16
    }
}

// A clause line of a kind, whose fields behind the tag are from..to.
pub fn clause_line(
    s: &[u8],
    from: usize,
    to: usize,
    kind: ClauseKind,
    a: SheetAt,
    events: &mut [u16],
    clauses: &mut [u16],
) -> Result<SheetAt, SheetError>
    requires part { Part s.now from to }
    requires events_len { (length events.old ≡ 192) × (length clauses.old ≡ 2304) × (length s.now ≤ text_limit) }
    requires sheet_ok { SheetOk s.now events.old clauses.old a }
    ensures { ClauseLineAs s.now from to (kind_number kind) a events.old clauses.old events.new clauses.new result }
{
    let n = a.events;
    let m = a.clauses;
    if find(s, from, to, PIPE) != to || n == 0 {
        return Err(SheetError::Malformed);
    }
    let g = signal::from_str(&s[from..to])?;
    if CLAUSE_LIMIT <= m {
        return Err(SheetError::PastLimit);
    }
    put_clause(clauses, m, kind.number(), from as u16, g);
    more_clauses(events, n - 1);
    Ok(with_counts(a, n, m + 1))
}
