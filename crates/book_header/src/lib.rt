// The size of a book, and its header read into a value.
#![tactic(auto)]

ghost use Rattle.std.specs.Prelude.{◌≡◌, ◌≤◌, length};
ghost use Rattle.position.specs.State.{no_time, fresh_head};
ghost use Rattle.book.specs.Layout.{head_of};
ghost use Rattle.book_header.specs.Size.{CapacityAs, SizedAs};
ghost use Rattle.book_header.specs.Bytes.{last_at};

use bar::{Bar, Instant, Time};
use book::{BAR_LIMIT, ENTRY_LENGTH, HEAD_LENGTH};
use book_field::{double_at, pos_at, time_at};
use le::get_u32;
use position::{Head, LastEvent, Pos};
use table::TABLE_LENGTH;

// The bytes for each bar: a hold and a record.
const BAR_LENGTH: usize = 2 * ENTRY_LENGTH;

// How many bars the book b has room for.
pub fn capacity(b: &[u8]) -> Option<u32>
    ensures { CapacityAs b.now result }
{
    let n = b.len();
    let c = n.saturating_sub(HEAD_LENGTH) / BAR_LENGTH;
    if (1..=BAR_LIMIT).contains(&c) && n == HEAD_LENGTH + BAR_LENGTH * c {
        Some(c as u32)
    } else {
        None
    }
}

// How many bars the book b has room for, where the table has its length.
pub fn size_of(table: &[u8], b: &[u8]) -> Option<u32>
    ensures { SizedAs table.now b.now result }
{
    if table.len() == TABLE_LENGTH {
        capacity(b)
    } else {
        None
    }
}

// The zero that stands where there is no time.
pub fn no_time() -> Time
    ensures { result ≡ no_time }
{
    Time {
        instant: Instant(0),
        offset: 0,
    }
}

// The header of a book without bars.
#[tactic(auto, unfolding(position::specs::State::fresh_head))]
pub fn fresh_head() -> Head
    ensures { result ≡ fresh_head }
{
    Head {
        pos: Pos::Flat,
        changed: false,
        end: no_time(),
        long: None,
        short: None,
        reference: None,
    }
}

// The event of the reference in the header b.
fn read_last(b: &[u8]) -> LastEvent
    requires { 96 ≤ length b.now }
    ensures { result ≡ last_at b.now }
{
    LastEvent {
        bar: Bar {
            id: get_u32(b, 68),
            time: time_at(b, 72, 80),
            price: double_at(b, 88),
        },
        operate: b[29],
        event: get_u32(b, 84),
    }
}

// The header of the book b.
pub fn read_head(b: &[u8]) -> Head
    requires { 96 ≤ length b.now }
    ensures { result ≡ head_of b.now }
{
    Head {
        pos: pos_at(b[24]),
        changed: b[25] == 1,
        end: time_at(b, 32, 40),
        long: (b[26] != 0).then_some(time_at(b, 48, 44)),
        short: (b[27] != 0).then_some(time_at(b, 56, 64)),
        reference: (b[28] != 0).then_some(read_last(b)),
    }
}
