// An accepted bar, written into the book's bytes: the last hold settled, a new hold, at most one record, the header.
#![tactic(auto)]

ghost use Rattle.std.specs.Prelude.{◌≡◌, true, ◌+◌, ◌<◌, ◌≤◌, length};
ghost use Rattle.le.specs.Le.{patch};
ghost use Rattle.le.specs.Field.{u32 as Field·u32};
ghost use Rattle.book.specs.Layout.{records_bytes};
ghost use Rattle.book.specs.Calls.{open_lots_in, settled, fed};
ghost use Rattle.position_machine.specs.Update.{wrote_of, going_of};
ghost use Rattle.book_write.specs.Write.{BookPassed, BarPassed, wrote_priced, Priced};

use bar::Bar;
use book::{ENTRY_LENGTH, HEAD_LENGTH};
use book_entry::{hold_at, put_hold, put_record};
use book_header_write::put_head;
use le::get_u32;
use position::Record;
use position_machine::{Update, new_hold, settle};

// The open lots of a book: those of its last hold, if it has one.
pub fn open_lots(b: &[u8], c: u32) -> u16
    requires { BookPassed b.now c }
    ensures { result ≡ open_lots_in b.now }
{
    let holds = get_u32(b, 0) as usize;
    if holds == 0 {
        return 0;
    }
    let at = HEAD_LENGTH + ENTRY_LENGTH * (holds - 1);
    hold_at(&b[at..at + ENTRY_LENGTH]).lots
}

// Works out the yield of the last hold, where there is one.
fn settle_last(b: &mut [u8], c: u32, bar: Bar)
    requires book_passed { BookPassed b.old c }
    requires bar_passed { BarPassed bar }
    ensures { b.new ≡ settled bar b.old }
{
    let hs = get_u32(b, 0) as usize;
    if hs == 0 {
        return;
    }
    let at = HEAD_LENGTH + ENTRY_LENGTH * (hs - 1);
    let o = hold_at(&b[at..at + ENTRY_LENGTH]);
    put_hold(b, at, settle(bar, o));
}

// Writes the record of a step at a place, if it wrote one, and answers how many it wrote.
fn put_wrote(b: &mut [u8], at: usize, w: Option<Record>) -> u32
    requires at_in_bounds { at + 32 ≤ length b.old }
    requires w_value { wrote_priced w ≡ true }
    ensures { (b.new ≡ patch b.old at (records_bytes (wrote_of w))) × (result ≡ length (wrote_of w)) }
{
    match w {
        None => 0,
        Some(r) => {
            put_record(b, at, r);
            1
        }
    }
}

// Writes an accepted bar: the last hold settled, the new hold, its record if there is one, the header.
pub fn write_bar(b: &mut [u8], c: u32, bar: Bar, u: Update)
    requires book_passed { BookPassed b.old c }
    requires b_bound { Field·u32 b.old 0 < c }
    requires bar_passed { BarPassed bar }
    requires priced { Priced u }
    ensures { b.new ≡ fed c bar (going_of u) b.old }
{
    let hs = get_u32(b, 0);
    let rs = get_u32(b, 4);
    settle_last(b, c, bar);
    put_hold(
        b,
        HEAD_LENGTH + ENTRY_LENGTH * hs as usize,
        new_hold(bar, u),
    );
    let records = HEAD_LENGTH + ENTRY_LENGTH * c as usize;
    let n = put_wrote(b, records + ENTRY_LENGTH * rs as usize, u.wrote);
    put_head(b, c, hs + 1, rs + n, u.head);
}
