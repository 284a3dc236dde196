// Reading a position sheet: its first line, and each later one by its tag.
#![tactic(auto)]

ghost use Rattle.std.specs.Prelude.{◌≡◌, ◌≤◌, length};
ghost use Rattle.text.specs.Read.{Part};
ghost use Rattle.utf8.specs.Alone.{text_limit};
ghost use Rattle.sheet.specs.Places.{SheetOk, SheetAs};
ghost use Rattle.sheet_read.specs.Lines.{LineAs, LinesAs};

use sheet::{SheetAt, SheetError};
use sheet_clause::{ClauseKind, clause_line};
use sheet_event::{EventKind, event_line};
use sheet_first::position_line;
use text::{LF, PIPE, find};
use utf8_text::TEXT_LIMIT;

// A later line from..to, by its tag, which is one byte.
fn later_line(
    s: &[u8],
    from: usize,
    to: usize,
    a: SheetAt,
    events: &mut [u16],
    clauses: &mut [u16],
) -> Result<SheetAt, SheetError>
    requires part { Part s.now from to }
    requires events_len { (length events.old ≡ 192) × (length clauses.old ≡ 2304) × (length s.now ≤ text_limit) }
    requires sheet_ok { SheetOk s.now events.old clauses.old a }
    ensures { LineAs s.now from to a events.old clauses.old events.new clauses.new result }
{
    if to - from < 2 || s[from + 1] != PIPE {
        return Err(SheetError::Malformed);
    }
    let at = from + 2;
    match s[from] {
        b'O' => event_line(s, at, to, EventKind::Opening, a, events),
        b'X' => event_line(s, at, to, EventKind::Exit, a, events),
        b'A' => clause_line(s, at, to, ClauseKind::All, a, events, clauses),
        b'Y' => clause_line(s, at, to, ClauseKind::Any, a, events, clauses),
        b'N' => clause_line(s, at, to, ClauseKind::Not, a, events, clauses),
        _ => Err(SheetError::Malformed),
    }
}

// The lines from `from` on, behind the first.
fn later_lines(
    s: &[u8],
    from: usize,
    a: SheetAt,
    events: &mut [u16],
    clauses: &mut [u16],
) -> Result<SheetAt, SheetError>
    requires from_in_bounds { from ≤ length s.now }
    requires events_len { (length events.old ≡ 192) × (length clauses.old ≡ 2304) × (length s.now ≤ text_limit) }
    requires sheet_ok { SheetOk s.now events.old clauses.old a }
    ensures { LinesAs s.now from a events.old clauses.old events.new clauses.new result }
{
    let n = s.len();
    let mut sheet = a;
    let mut i = from;
    // A while loop: each turn goes on where its line ended.
    while i < n {
        let end = find(s, i, n, LF);
        if end == n {
            return Err(SheetError::Malformed);
        }
        sheet = later_line(s, i, end, sheet, events, clauses)?;
        i = end + 1;
    }
    Ok(sheet)
}

// The sheet that s is, or the first reason to refuse it. The numbers of its events and of its clauses are written to what is lent, which has
// room for 32 events and 256 clauses. Never inlined: among all that compiling keeps, the searches of the text would keep their places on the stack.
#[inline(never)]
pub fn read_sheet(s: &[u8], events: &mut [u16], clauses: &mut [u16]) -> Result<SheetAt, SheetError>
    requires { (length events.old ≡ 192) × (length clauses.old ≡ 2304) }
    ensures { SheetAs s.now events.new clauses.new result }
{
    let n = s.len();
    if TEXT_LIMIT < n {
        return Err(SheetError::PastLimit);
    }
    if !utf8_text::valid(s) {
        return Err(SheetError::NotUtf8);
    }
    let end = find(s, 0, n, LF);
    if end == n {
        return Err(SheetError::Malformed);
    }
    let a = position_line(s, end)?;
    later_lines(s, end + 1, a, events, clauses)
}
