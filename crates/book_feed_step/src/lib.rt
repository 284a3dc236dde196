// The step of a bar on a book: whether the bar is in time, and what an accepted one changes.
#![tactic(auto)]

ghost use Rattle.std.specs.Prelude.{◌≡◌, true, ◌<◌, ◌≤◌, length};
ghost use Rattle.le.specs.Field.{u32 as Field·u32};
ghost use Rattle.event_find.specs.Places.{lines_at, LinesOk};
ghost use Rattle.table.specs.Layout.{counts_in};
ghost use Rattle.table.specs.Table.{is_table};
ghost use Rattle.table_match.specs.First.{Below};
ghost use Rattle.position_machine.specs.Update.{wrote_of, going_of};
ghost use Rattle.book_write.specs.Write.{BookPassed, BarPassed};
ghost use Rattle.book_feed_step.specs.Steps.{decided_by, reported_by, in_time, taken, TakenBy};

use bar::Bar;
use book_feed_input::choose;
use book_header::read_head;
use book_write::{open_lots, write_bar};
use le::{get_i64, get_u32};
use position::{Description, Record, Report};
use position_machine::Update;
use position_machine::step::update;
use table::read_settings;
use table_match::first_match;

// What decided a bar, by the event that matched and the record.
fn decide(m: Option<usize>, w: Option<Record>) -> Option<Description>
    requires { Below 65536 m }
    ensures { result ≡ decided_by m (wrote_of w) }
{
    match (w, m) {
        (Some(r), _) => Some(r.description),
        (None, Some(i)) => Some(Description::Event(i as u16)),
        (None, None) => None,
    }
}

// What is said of an accepted bar.
fn report(m: Option<usize>, u: Update) -> Report
    requires { Below 65536 m }
    ensures { result ≡ reported_by m (going_of u) }
{
    Report {
        pos: u.head.pos,
        changed: u.head.changed,
        decision: decide(m, u.wrote),
    }
}

// An accepted bar whose match is known: its step, and the book after it.
pub fn take_matched(t: &[u8], b: &mut [u8], c: u32, bar: Bar, m: Option<usize>) -> Report
    requires t_value { is_table t.now ≡ true }
    requires book_passed { BookPassed b.old c }
    requires b_bound { Field·u32 b.old 0 < c }
    requires bar_passed { BarPassed bar }
    requires below { Below (counts_in t.now).events m }
    ensures { TakenBy t.now c bar m b.old b.new result }
{
    let u = update(
        read_settings(t),
        bar,
        choose(t, m),
        open_lots(b, c),
        read_head(b),
    );
    write_bar(b, c, bar, u);
    report(m, u)
}

// An accepted bar: its match, its step, and the book after it.
pub fn take_bar(
    t: &[u8],
    b: &mut [u8],
    c: u32,
    bar: Bar,
    s: &[u8],
    starts: &[usize],
    mids: &[usize],
    prints: &[u16],
    n: usize,
) -> Report
    requires t_value { is_table t.now ≡ true }
    requires book_passed { BookPassed b.old c }
    requires b_bound { Field·u32 b.old 0 < c }
    requires bar_passed { BarPassed bar }
    requires lines_ok { LinesOk s.now starts.now mids.now prints.now n }
    ensures { record { after = b.new; report = result } ≡ taken t.now c bar (lines_at s.now starts.now mids.now n) b.old }
{
    let m = first_match(t, s, starts, mids, prints, n);
    take_matched(t, b, c, bar, m)
}

// Whether a bar is later than end, or the book has no holds.
#[tactic(auto, unfolding(book::specs::Layout::head_of))]
pub fn is_in_time(b: &[u8], bar: Bar) -> bool
    requires { 96 ≤ length b.now }
    ensures { result ≡ in_time bar b.now }
{
    get_u32(b, 0) == 0 || get_i64(b, 32) < bar.time.instant.0
}
