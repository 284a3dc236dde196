// The full check of a book, and the answers 9 and 10 that saves, restores and rows share.
#![tactic(auto)]

ghost use Rattle.std.specs.Prelude.{◌≡◌, ◌||◌, ◌+◌, ◌*◌, ◌≤◌, eqb, ltb, length};
ghost use Rattle.le.specs.Field.{u8, u32};
ghost use Rattle.book_header.specs.Size.{SizeOk};
ghost use Rattle.book.specs.Layout.{slots};
ghost use Rattle.book.specs.Check.{hold_ok, record_ok, full_ok};
ghost use Rattle.book_check.specs.Read.{CheckedAs};
ghost use Rattle.book_check.specs.Walk.{orderly, risen};

use book::{ENTRY_LENGTH, HEAD_LENGTH, OpenError};
use book_entry_check::{hold_ok, record_ok};
use book_header_check::header_ok;
use le::{get_i64, get_u32};
use table::read_counts;
use table_check::is_table;

// Whether the instant of slot number i, at p, is above that of the slot before it, where there is one.
#[tactic(auto, unfolding(crate::specs::Walk::risen))]
fn rises(b: &[u8], p: usize, i: usize) -> bool
    requires p_in_bounds { p + 32 ≤ length b.now }
    requires i_bound { 32 * i ≤ p }
    ensures { result ≡ risen b.now p i }
{
    i == 0 || get_i64(b, p - ENTRY_LENGTH) < get_i64(b, p)
}

// Whether the n holds from `at` on are in range, their instants strictly rising.
fn holds_ok(b: &[u8], at: usize, n: usize) -> bool
    requires { at + 32 * n ≤ length b.now }
    ensures { result ≡ orderly hold_ok (slots b.now at n) }
{
    for i in 0..n {
        let p = at + ENTRY_LENGTH * i;
        if !(hold_ok(&b[p..p + ENTRY_LENGTH]) && rises(b, p, i)) {
            return false;
        }
    }
    true
}

// Whether the n records from `at` on are in range, of a table with so many events, their instants strictly rising.
fn records_ok(b: &[u8], at: usize, n: usize, events: u32) -> bool
    requires { at + 32 * n ≤ length b.now }
    ensures { result ≡ orderly (record_ok events) (slots b.now at n) }
{
    for i in 0..n {
        let p = at + ENTRY_LENGTH * i;
        if !(record_ok(&b[p..p + ENTRY_LENGTH], events) && rises(b, p, i)) {
            return false;
        }
    }
    true
}

// Whether a present reference's event is one of so many.
fn event_ok(b: &[u8], events: u32) -> bool
    requires { 96 ≤ length b.now }
    ensures { result ≡ (eqb (u8 b.now 28) 0 || ltb (u32 b.now 84) events) }
{
    b[28] == 0 || get_u32(b, 84) < events
}

// Whether b of c bars passes the full check, of a table with so many events.
fn full_ok(b: &[u8], c: u32, events: u32) -> bool
    requires { SizeOk b.now c }
    ensures { result ≡ full_ok events c b.now }
{
    // By itself: the lists that the counts tell of are in the book only where the header is right.
    if !header_ok(b, c) {
        return false;
    }
    let holds = get_u32(b, 0) as usize;
    let records = get_u32(b, 4) as usize;
    event_ok(b, events)
        && holds_ok(b, HEAD_LENGTH, holds)
        && records_ok(b, HEAD_LENGTH + ENTRY_LENGTH * c as usize, records, events)
}

// Whether b of c bars is a book of the table: the answers 9 and 10.
pub fn check_book(table: &[u8], b: &[u8], c: u32) -> Result<(), OpenError>
    requires { SizeOk b.now c }
    ensures { CheckedAs table.now c b.now result }
{
    if !is_table(table) {
        return Err(OpenError::NotTable);
    }
    if !full_ok(b, c, read_counts(table).events) {
        return Err(OpenError::NotBook);
    }
    Ok(())
}
