// An event's line of a position sheet.
#![tactic(auto)]

ghost use Rattle.std.specs.Prelude.{◌≡◌, suc, ◌≤◌, length};
ghost use Rattle.text.specs.Read.{Part};
ghost use Rattle.utf8.specs.Alone.{text_limit};
ghost use Rattle.sheet.specs.Sheet.{exit_in};
ghost use Rattle.sheet.specs.Read.{lots_behind, event_fields};
ghost use Rattle.sheet.specs.Places.{behind};
ghost use Rattle.sheet_event.specs.Line.{kind_number, LotsIs, Told, EventLineAs};

use operate::parse_operate;
use sheet::{EVENT_LIMIT, LOTS_LIMIT, NAME_LIMIT, SheetAt, SheetError};
use sheet_numbers::{in_place, put_event, with_counts};
use text::{PIPE, count_parts, find};
use text_number::decimal;

// The kinds of event.
#[derive(Clone, Copy)]
pub enum EventKind {
    Opening,
    Exit,
}

impl EventKind {
    // The number that is kept.
    fn number(self) -> u16
        ensures { result ≡ kind_number self }
    {
        self as u16
    }
}

// The lots in the field behind the name, which ends at `at`; 1 where there is none.
fn lots_behind(s: &[u8], at: usize, to: usize) -> Result<u64, SheetError>
    requires { Part s.now at to }
    ensures { LotsIs (lots_behind (behind s.now at to)) result }
{
    if at == to {
        return Ok(1);
    }
    let n = decimal(s, at + 1, to, 10).ok_or(SheetError::BadNumber)?;
    if (1..=LOTS_LIMIT).contains(&n) {
        Ok(n)
    } else {
        Err(SheetError::BadLots)
    }
}

// Whether a line of a kind may have n fields behind its tag.
fn fields_fit(kind: EventKind, n: usize) -> bool
    ensures { result ≡ event_fields (exit_in (kind_number kind)) (suc n) }
{
    match kind {
        EventKind::Opening => n == 2 || n == 3,
        EventKind::Exit => n == 2,
    }
}

// An event line whose operate ends at b and whose name ends at c.
fn told_line(
    s: &[u8],
    from: usize,
    b: usize,
    c: usize,
    to: usize,
    kind: EventKind,
    a: SheetAt,
    events: &mut [u16],
) -> Result<SheetAt, SheetError>
    requires told { Told s.now events.old from b c to (kind_number kind) a }
    requires events_len { (length events.old ≡ 192) × (a.events ≤ 32) × (a.clauses ≤ 256) × (length s.now ≤ text_limit) }
    ensures { EventLineAs s.now from to (kind_number kind) a events.old events.new result }
{
    let n = a.events;
    let m = a.clauses;
    let o = parse_operate(&s[from..b]).ok_or(SheetError::UnknownOperate)?;
    let len = c - (b + 1);
    if NAME_LIMIT < len {
        return Err(SheetError::PastLimit);
    }
    let lots = lots_behind(s, c, to)?;
    if EVENT_LIMIT <= n {
        return Err(SheetError::PastLimit);
    }
    let beyond = (lots - 1) as u16;
    let number = kind.number() + 2 * beyond;
    put_event(events, n, number, o.code() as u16, b + 1, len, m);
    Ok(with_counts(a, n + 1, m))
}

// An event line of a kind, whose fields behind the tag are from..to.
pub fn event_line(
    s: &[u8],
    from: usize,
    to: usize,
    kind: EventKind,
    a: SheetAt,
    events: &mut [u16],
) -> Result<SheetAt, SheetError>
    requires part { Part s.now from to }
    requires events_len { (length events.old ≡ 192) × (a.events ≤ 32) × (a.clauses ≤ 256) × (length s.now ≤ text_limit) }
    ensures { EventLineAs s.now from to (kind_number kind) a events.old events.new result }
{
    if !fields_fit(kind, count_parts(s, from, to, PIPE))
        || !in_place(events, a.events, kind.number())
    {
        return Err(SheetError::Malformed);
    }
    let b = find(s, from, to, PIPE);
    let c = find(s, b + 1, to, PIPE);
    told_line(s, from, b, c, to, kind, a, events)
}
