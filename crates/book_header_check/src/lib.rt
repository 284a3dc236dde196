// The header check of a book.
#![tactic(auto)]

ghost use Rattle.std.specs.Prelude.{◌≡◌, ◌+◌, ◌≤◌, length};
ghost use Rattle.std.specs.Int.Signed.{le_z};
ghost use Rattle.le.specs.Le.{part};
ghost use Rattle.le.specs.Field.{u8, i64};
ghost use Rattle.text.specs.Text.{same};
ghost use Rattle.position.specs.State.{fresh_head};
ghost use Rattle.book.specs.Layout.{head_bytes};
ghost use Rattle.book.specs.Check.{counts_ok, open_ok, reference_ok, last_ok, used_ok, header_ok};
ghost use Rattle.book_header.specs.Size.{SizeOk};
ghost use Rattle.book_header_check.specs.Used.{Used};

use bar::LAST_ID;
use book::{ENTRY_LENGTH, HEAD_LENGTH};
use book_entry_check::{hold_ok, is_priced, is_timed, zeros};
use book_header::fresh_head;
use book_header_write::put_head;
use le::{get_i64, get_u32};
use operate::is_opening;
use text::part_eq;

// The length of a header, of a hold and of a record.
const HEAD: u32 = HEAD_LENGTH as u32;

const ENTRY: u32 = ENTRY_LENGTH as u32;

// Whether the counts and the places are right, for C bars.
#[tactic(auto, unfolding(text::specs::Conditions::all_of, book::specs::Check::counts_ok))]
fn counts_ok(b: &[u8], c: u32) -> bool
    requires { SizeOk b.now c }
    ensures { result ≡ counts_ok c b.now }
{
    let holds = get_u32(b, 0);
    get_u32(b, 8) == c
        && get_u32(b, 12) == HEAD
        && get_u32(b, 16) == HEAD + ENTRY * c
        && get_u32(b, 20) == HEAD + 2 * ENTRY * c
        && get_u32(b, 4) <= holds
        && holds <= c
}

// Whether the instant at a place is not after end.
fn not_after_end(b: &[u8], at: usize) -> bool
    requires in_bounds { 96 ≤ length b.now }
    requires at_bound { at + 8 ≤ 96 }
    ensures { result ≡ le_z (i64 b.now at) (i64 b.now 32) }
{
    get_i64(b, at) <= get_i64(b, 32)
}

// Whether an open is right by its presence byte p: zero where absent, else in range and not after end.
fn open_ok(b: &[u8], p: u8, at: usize, offset: usize) -> bool
    requires in_bounds { 96 ≤ length b.now }
    requires at_bound { (at + 8 ≤ 96) × (offset + 4 ≤ 96) }
    ensures { result ≡ open_ok b.now p at offset }
{
    match p {
        0 => zeros(b, at, 8) && zeros(b, offset, 4),
        1 => is_timed(b, at, offset) && not_after_end(b, at),
        _ => false,
    }
}

// Whether a present reference is in range, LO or SO, and not after end.
fn present_ok(b: &[u8]) -> bool
    requires { 96 ≤ length b.now }
    ensures { result ≡ reference_ok b.now 1 }
{
    is_opening(b[29])
        && get_u32(b, 68) <= LAST_ID
        && is_timed(b, 72, 80)
        && not_after_end(b, 72)
        && is_priced(b, 88)
}

// Whether the reference is right by its presence byte: zero where absent.
fn reference_ok(b: &[u8]) -> bool
    requires { 96 ≤ length b.now }
    ensures { result ≡ reference_ok b.now (u8 b.now 28) }
{
    match b[28] {
        0 => b[29] == 0 && zeros(b, 68, 28),
        1 => present_ok(b),
        _ => false,
    }
}

// Whether the last hold o is in range with the header's end, offset and pos, its yield absent.
#[tactic(auto, using(crate::proofs::Fields::same_end), unfolding(text::specs::Conditions::all_of, book::specs::Check::last_ok))]
fn last_ok(b: &[u8], o: &[u8]) -> bool
    requires in_bounds { 96 ≤ length b.now }
    requires in_bounds_2 { 32 ≤ length o.now }
    ensures { result ≡ last_ok b.now o.now }
{
    hold_ok(o) && part_eq(o, 0, 12, b, 32, 44) && o[12] == b[24] && o[13] == 0
}

// Whether a header with H > 0 is right.
#[tactic(auto, using(crate::proofs::Slot::last_slot), unfolding(text::specs::Conditions::all_of, book::specs::Check::used_ok))]
fn used_ok(b: &[u8], hs: u32) -> bool
    requires { Used b.now hs }
    ensures { result ≡ used_ok b.now }
{
    let at = HEAD_LENGTH + ENTRY_LENGTH * (hs as usize - 1);
    b[24] <= 2
        && b[25] <= 1
        && zeros(b, 30, 2)
        && is_timed(b, 32, 40)
        && open_ok(b, b[26], 48, 44)
        && open_ok(b, b[27], 56, 64)
        && reference_ok(b)
        && last_ok(b, &b[at..at + ENTRY_LENGTH])
}

// Whether the header is a fresh one's.
fn is_fresh(b: &[u8], c: u32) -> bool
    requires { SizeOk b.now c }
    ensures { result ≡ same (part b.now 0 96) (head_bytes c 0 0 fresh_head) }
{
    let mut own = [0u8; 96];
    put_head(&mut own, c, 0, 0, fresh_head());
    part_eq(b, 0, 96, &own, 0, 96)
}

// The header check of a book of 96 + 64C bytes.
#[tactic(auto, unfolding(book::specs::Check::header_ok))]
pub fn header_ok(b: &[u8], c: u32) -> bool
    requires { SizeOk b.now c }
    ensures { result ≡ header_ok c b.now }
{
    let holds = get_u32(b, 0);
    counts_ok(b, c)
        && (if holds == 0 {
            is_fresh(b, c)
        } else {
            used_ok(b, holds)
        })
}
