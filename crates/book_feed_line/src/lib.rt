// A feed of a bar that a line of the exchange's comma file says.
#![tactic(auto)]

ghost use Rattle.std.specs.Prelude.{◌≡◌, true};
ghost use Rattle.table.specs.Table.{is_table};
ghost use Rattle.book.specs.Calls.{feed_line_do};
ghost use Rattle.book_write.specs.Write.{BookPassed};
ghost use Rattle.book_feed.specs.Feed.{FeedAs};
ghost use Rattle.book_feed_line.specs.Steps.{line_do};

use bar_line_read::read_line;
use book_feed::{FeedError, feed_numbers, open_book};
use position::Report;

// A line and its signals' text: 16, 17, then what its numbers give.
fn read_and_feed(t: &[u8], b: &mut [u8], c: u32, line: &[u8], s: &[u8]) -> Result<Report, FeedError>
    requires t_value { is_table t.now ≡ true }
    requires book_passed { BookPassed b.old c }
    ensures { FeedAs (line_do t.now c line.now s.now b.old) b.old b.new result }
{
    let n = read_line(line)?;
    feed_numbers(t, b, c, n.id, n.instant, n.offset, n.price, s)
}

// A feed of a line and its signals into the book b, by the table.
pub fn feed_line(
    table: &[u8],
    b: &mut [u8],
    line: &[u8],
    signals: &[u8],
) -> Result<Report, FeedError>
    ensures { FeedAs (feed_line_do table.now b.old line.now signals.now) b.old b.new result }
{
    let c = open_book(table, b)?;
    read_and_feed(table, b, c, line, signals)
}
