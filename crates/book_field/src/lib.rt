// Code only: the fields that a book's header, holds and records share: doubles, times and positions, read from bytes and written to them.
#![tactic(auto)]

ghost use Rattle.std.specs.Prelude.{◌≡◌, true, ◌+◌, ◌≤◌, length};
ghost use Rattle.le.specs.Le.{patch};
ghost use Rattle.le.specs.Field.{f64};
ghost use Rattle.bar.specs.Bar.{instant_ok, offset_ok, time_ok, local_of};
ghost use Rattle.position.specs.State.{pos_code, pos_sign};
ghost use Rattle.book.specs.Layout.{time_bytes, time_at, pos_at};

use bar::{Instant, LAST_INSTANT, LAST_OFFSET, LocalTime, Time};
use position::Pos;

// The least offset.
const FIRST_OFFSET: i32 = -LAST_OFFSET;

// The double whose bits start at `at`.
pub fn double_at(b: &[u8], at: usize) -> f64
    requires { at + 8 ≤ length b.now }
    ensures { result ≡ f64 b.now at }
{
    le::get_f64(b, at).unwrap_or(f64::NAN)
}

// The time whose instant starts at `at`, and its offset at `offset`.
pub fn time_at(b: &[u8], at: usize, offset: usize) -> Time
    requires { (at + 8 ≤ length b.now) × (offset + 4 ≤ length b.now) }
    ensures { result ≡ time_at b.now at offset }
{
    Time {
        instant: Instant(le::get_i64(b, at)),
        offset: le::get_i32(b, offset),
    }
}

// Writes an instant from `at` on, and its offset behind it.
pub fn put_time(b: &mut [u8], at: usize, t: Time)
    requires { at + 12 ≤ length b.old }
    ensures { b.new ≡ patch b.old at (time_bytes t) }
{
    le::put_i64(b, at, t.instant.0);
    le::put_i32(b, at + 8, t.offset);
}

// Writes some bytes from `at` on.
pub fn put_bytes(b: &mut [u8], at: usize, bytes: &[u8])
    requires { at + length bytes.now ≤ length b.old }
    ensures { b.new ≡ patch b.old at bytes.now }
{
    b[at..at + bytes.len()].copy_from_slice(bytes);
}

// The position of a code: 0 Short, 1 Flat, 2 Long.
pub fn pos_at(code: u8) -> Pos
    ensures { result ≡ pos_at code }
{
    match code {
        0 => Pos::Short,
        1 => Pos::Flat,
        _ => Pos::Long,
    }
}

// The code of a position.
pub fn pos_code(p: Pos) -> u8
    ensures { result ≡ pos_code p }
{
    match p {
        Pos::Short => 0,
        Pos::Flat => 1,
        Pos::Long => 2,
    }
}

// A position as -1, 0 or 1.
pub fn pos_sign(p: Pos) -> i32
    ensures { result ≡ pos_sign p }
{
    match p {
        Pos::Short => -1,
        Pos::Flat => 0,
        Pos::Long => 1,
    }
}

// Whether an instant is in its range.
fn instant_ok(z: i64) -> bool
    ensures { result ≡ instant_ok z }
{
    (0..=LAST_INSTANT).contains(&z)
}

// Whether an offset is in its range.
fn offset_ok(z: i32) -> bool
    ensures { result ≡ offset_ok z }
{
    (FIRST_OFFSET..=LAST_OFFSET).contains(&z)
}

// Whether a time's instant and its offset are each in their range.
pub fn time_ok(t: Time) -> bool
    ensures { result ≡ time_ok t }
{
    instant_ok(t.instant.0) && offset_ok(t.offset)
}

// The local time of a time in range.
pub fn local_of(t: Time) -> LocalTime
    requires { time_ok t ≡ true }
    ensures { result ≡ local_of t }
{
    t.instant.local(t.offset)
}
