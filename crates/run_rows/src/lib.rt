// All rows of a book as the run program prints them: its pairs, then its holds.
#![tactic(auto)]

ghost use Rattle.std.specs.Prelude.{◌+◌, ◌*◌, ◌≤◌, length};
ghost use Rattle.position.specs.Run.{run_bars};
ghost use Rattle.run_fields.specs.Fields.{ShortPut};
ghost use Rattle.run_output.specs.Shown.{pair_room, hold_room};
ghost use Rattle.run_rows.specs.Rows.{Booked, pair_lines, hold_lines, PairAdded, HoldAdded};

use row_holds::hold_row;
use row_pairs::{ROW_BUFFER, pair_row};
use run_output::{HOLD_ROOM, PAIR_ROOM, put_hold, put_pair};

// Prints pair row number i, where there is one.
fn add_pair(table: &[u8], book: &[u8], i: usize, out: &mut [u8], at: usize) -> Option<usize>
    requires booked { Booked table.now book.now }
    requires i_le_run_bars { i ≤ run_bars }
    requires pair_room_in_bounds { at + pair_room ≤ length out.old }
    ensures { PairAdded table.now book.now i out.old out.new at result }
{
    let mut buffer = [0u8; ROW_BUFFER];
    let p = pair_row(table, book, i as i64, &mut buffer).ok()?;
    let n = put_pair(&mut out[at..at + PAIR_ROOM], 0, p, &buffer);
    Some(at + n)
}

// Prints the pair rows of a book of 900 bars.
pub fn put_pairs(table: &[u8], book: &[u8], out: &mut [u8], from: usize) -> usize
    requires booked { Booked table.now book.now }
    requires pair_room_in_bounds { from + (run_bars + 1) * pair_room ≤ length out.old }
    ensures { ShortPut (run_bars * pair_room) out.old out.new from (pair_lines table.now book.now) result }
{
    let mut at = from;
    let mut i: usize = 0;
    while let Some(r) = add_pair(table, book, i, out, at) {
        at = r;
        i += 1;
    }
    at
}

// Prints hold row number i, where there is one.
fn add_hold(table: &[u8], book: &[u8], i: usize, out: &mut [u8], at: usize) -> Option<usize>
    requires booked { Booked table.now book.now }
    requires i_le_run_bars { i ≤ run_bars }
    requires hold_room_in_bounds { at + hold_room ≤ length out.old }
    ensures { HoldAdded table.now book.now i out.old out.new at result }
{
    let o = hold_row(table, book, i as i64).ok()?;
    let n = put_hold(&mut out[at..at + HOLD_ROOM], 0, o);
    Some(at + n)
}

// Prints the hold rows of a book of 900 bars.
pub fn put_holds(table: &[u8], book: &[u8], out: &mut [u8], from: usize) -> usize
    requires booked { Booked table.now book.now }
    requires hold_room_in_bounds { from + (run_bars + 1) * hold_room ≤ length out.old }
    ensures { ShortPut (run_bars * hold_room) out.old out.new from (hold_lines book.now) result }
{
    let mut at = from;
    let mut i: usize = 0;
    while let Some(r) = add_hold(table, book, i, out, at) {
        at = r;
        i += 1;
    }
    at
}
