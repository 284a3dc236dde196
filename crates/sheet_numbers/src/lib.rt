// The numbers of a sheet that is read: those of one event or one clause more, written behind the others'. Each fits 16 bits: a text has at
// most 16,384 bytes.
#![tactic(auto)]

ghost use Rattle.std.specs.Prelude.{◌≡◌, [], ◌∷◌, ◌+◌, ◌*◌, ◌<◌, ◌≤◌, length};
ghost use Rattle.le.specs.Le.{patch};
ghost use Rattle.sheet.specs.Places.{event_number};
ghost use Rattle.sheet_numbers.specs.Counted.{counted, in_place, Narrow};

use sheet::{CLAUSE_NUMBERS, EVENT_NUMBERS, SheetAt};
use signal::SignalAt;

// Writes event n, which has no clause yet: its kind with its lots, its operate, where its name starts, the name's length, and its first clause.
pub fn put_event(
    events: &mut [u16],
    n: usize,
    kind: u16,
    operate: u16,
    from: usize,
    len: usize,
    first: usize,
)
    requires n_in_bounds { 6 * n + 6 ≤ length events.old }
    requires from_bound { (from < 65536) × (len < 65536) × (first < 65536) }
    ensures { events.new ≡ patch events.old (6 * n) (kind ∷ operate ∷ from ∷ len ∷ first ∷ 0 ∷ []) }
{
    let at = EVENT_NUMBERS * n;
    let numbers = [kind, operate, from as u16, len as u16, first as u16, 0];
    events[at..at + EVENT_NUMBERS].copy_from_slice(&numbers);
}

// Writes clause n: its kind, where its signal starts, the places of the signal's parts, and the score.
pub fn put_clause(clauses: &mut [u16], n: usize, kind: u16, from: u16, g: SignalAt)
    requires n_in_bounds { 9 * n + 9 ≤ length clauses.old }
    requires narrow { Narrow g }
    ensures { clauses.new ≡ patch clauses.old (9 * n) (kind ∷ from ∷ g.k1 ∷ g.k2 ∷ g.k3 ∷ g.v1 ∷ g.v2 ∷ g.v3 ∷ g.score ∷ []) }
{
    let at = CLAUSE_NUMBERS * n;
    let numbers = [
        kind,
        from,
        g.k1 as u16,
        g.k2 as u16,
        g.k3 as u16,
        g.v1 as u16,
        g.v2 as u16,
        g.v3 as u16,
        g.score as u16,
    ];
    clauses[at..at + CLAUSE_NUMBERS].copy_from_slice(&numbers);
}

// Adds one to the count of event i.
pub fn more_clauses(events: &mut [u16], i: usize)
    requires { (6 * i + 6 ≤ length events.old) × (event_number events.old i 5 ≤ 256) }
    ensures { events.new ≡ patch events.old (6 * i + 5) ((event_number events.old i 5 + 1) ∷ []) }
{
    events[EVENT_NUMBERS * i + 5] += 1;
}

// The same sheet with other counts.
pub fn with_counts(a: SheetAt, events: usize, clauses: usize) -> SheetAt
    ensures { result ≡ counted a events clauses }
{
    SheetAt {
        events,
        clauses,
        ..a
    }
}

// Whether an event of this kind, with whatever lots, may come behind n events.
pub fn in_place(events: &[u16], n: usize, kind: u16) -> bool
    requires { 6 * n ≤ length events.now }
    ensures { result ≡ in_place events.now n kind }
{
    kind % 2 == 1 || n == 0 || events[EVENT_NUMBERS * (n - 1)] % 2 != 1
}
