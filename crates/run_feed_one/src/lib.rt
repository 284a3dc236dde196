// One bar of the run program: it is fed with its signals, and its line is printed.
#![tactic(auto)]

ghost use Rattle.std.specs.Prelude.{◌+◌, ◌≤◌, T, length};
ghost use Rattle.std.specs.Float.{binary64};
ghost use Rattle.std.specs.Float.Ieee.{fits};
ghost use Rattle.position.specs.Feed.{input_of};
ghost use Rattle.run_output.specs.Shown.{feed_room};
ghost use Rattle.run_rows.specs.Rows.{Booked};
ghost use Rattle.run_feed_one.specs.One.{FedOne};

use bar::BarNumbers;
use book_feed::feed_bar;
use book_field::pos_sign;
use book_header::read_head;
use run_output::{FEED_ROOM, put_feed};

// Feeds a bar with its signals, and prints its line.
pub fn feed_one(
    table: &[u8],
    book: &mut [u8],
    b: BarNumbers,
    signals: &[u8],
    out: &mut [u8],
    at: usize,
) -> usize
    requires booked { Booked table.now book.old }
    requires t { T (fits binary64 b.price) }
    requires feed_room_in_bounds { at + feed_room ≤ length out.old }
    ensures { FedOne table.now book.old book.new (input_of b signals.now) out.old out.new at result }
{
    let r = feed_bar(table, book, b.id, b.instant, b.offset, b.price, signals);
    let number = match r {
        Ok(_) => 0,
        Err(e) => e.number(),
    };
    let h = read_head(book);
    let n = put_feed(
        &mut out[at..at + FEED_ROOM],
        0,
        number,
        pos_sign(h.pos),
        h.changed,
    );
    at + n
}
