// Whether the events of a table are right, row by row.
#![tactic(auto)]

ghost use Rattle.std.specs.Prelude.{◌≡◌, true, ◌*◌, ◌≤◌, length, drop};
ghost use Rattle.text.specs.Conditions.{all_of};
ghost use Rattle.table_words.specs.Words.{clean};
ghost use Rattle.table.specs.Layout.{event_length};
ghost use Rattle.table.specs.Table.{kind_ok, event_ok, events_ok};
ghost use Rattle.table_check_events.specs.Check.{event_rows, event_asked};

use sheet::{LOTS_LIMIT, NAME_LIMIT};
use table::{EventRow, event_at};
use table_words::is_cut;

// Whether an exit has one lot, and an opening no more than the limit.
fn kind_ok(kind: u16) -> bool
    ensures { result ≡ kind_ok kind }
{
    if kind % 2 == 1 {
        kind == 1
    } else {
        ((kind / 2) as u64) < LOTS_LIMIT
    }
}

// Whether an event is right; names are those of all, clean from its own on, so that its name is clean where it may be cut off.
#[tactic(auto, using(crate::proofs::Events::name_clean), unfolding(text::specs::Conditions::all_of, table::specs::Table::event_ok))]
fn event_ok(names: &[u8], e: EventRow) -> bool
    requires { clean (drop e.at names.now) ≡ true }
    ensures { result ≡ event_ok names.now e }
{
    kind_ok(e.kind)
        && e.operate <= 6
        && e.len as usize <= NAME_LIMIT
        && is_cut(names, e.at as usize + e.len as usize)
}

// Whether an event is right, and its name starts at f and its clauses at g.
#[tactic(auto, unfolding(text::specs::Conditions::all_of))]
fn event_follows(names: &[u8], e: EventRow, f: usize, g: usize) -> bool
    requires { clean (drop f names.now) ≡ true }
    ensures { result ≡ all_of (event_asked names.now e f g) }
{
    e.at as usize == f
        && e.first as usize == g
        && e.at as usize + e.len as usize <= names.len()
        && event_ok(names, e)
}

// Whether n events are right, with names and clauses that follow each other; the names are clean as a whole.
pub fn events_ok(rows: &[u8], names: &[u8], n: usize, clauses: usize) -> bool
    requires n_in_bounds { event_length * n ≤ length rows.now }
    requires names_value { clean names.now ≡ true }
    ensures { result ≡ events_ok names.now clauses (event_rows n rows.now) }
{
    let mut f: usize = 0;
    let mut g: usize = 0;
    for i in 0..n {
        let e = event_at(rows, i);
        if !event_follows(names, e, f, g) {
            return false;
        }
        f = e.at as usize + e.len as usize;
        g = e.first as usize + e.count as usize;
    }
    f == names.len() && g == clauses
}
