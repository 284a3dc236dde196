// The run program's bars: a fresh book is fed with the lines behind `-`, and what is said of each is printed, then the book's rows.
#![tactic(auto)]

ghost use Rattle.run_input.specs.Lines.{input_refusal};
ghost use Rattle.run_bars.specs.Steps.{Begun, RanAs};

use book::{ENTRY_LENGTH, HEAD_LENGTH};
use book_store::fresh;
use run_feed::feed_lines;
use run_input::InputError;
use run_rows::{put_holds, put_pairs};

// The most bytes of an input.
pub const INPUT_LIMIT: usize = 65_536;

// The bytes of a book of 900 bars.
const BOOK_LENGTH: usize = HEAD_LENGTH + 2 * ENTRY_LENGTH * 900;

// Feeds a fresh book with the bars of s from `from` on, and prints what is said of each, then the book's rows.
pub fn run_bars(table: &[u8], s: &[u8], from: usize, out: &mut [u8]) -> Result<usize, InputError>
    requires { Begun s.now table.now out.old from }
    ensures { RanAs input_refusal s.now out.old out.new result }
{
    let mut book = [0u8; BOOK_LENGTH];
    let mut signals = [0u8; INPUT_LIMIT];
    fresh(&mut book).unwrap();
    let at = feed_lines(table, &mut book, s, from, &mut signals, out)?;
    let end = put_pairs(table, &book, out, at);
    Ok(put_holds(table, &book, out, end))
}
