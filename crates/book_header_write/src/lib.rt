// The header of a book, written from a value.
#![tactic(auto)]

ghost use Rattle.std.specs.Prelude.{◌≡◌, true, ◌≤◌, length};
ghost use Rattle.std.specs.Float.Ieee.Scale.{finite};
ghost use Rattle.le.specs.Le.{patch};
ghost use Rattle.book.specs.Layout.{bar_limit, open_time, head_bytes};
ghost use Rattle.book_header.specs.Size.{priced};
ghost use Rattle.book_header_write.specs.Bytes.{counts_bytes, flags_bytes, times_bytes, last_bytes, last_of};

use bar::Bar;
use book_field::{pos_code, put_bytes, put_time};
use book_header::no_time;
use le::{put_f64, put_i32, put_i64, put_u32};
use position::{Head, LastEvent};

// The event of a reference, zero where there is none.
fn last_of(r: Option<LastEvent>) -> LastEvent
    ensures { result ≡ last_of r }
{
    r.unwrap_or(LastEvent {
        bar: Bar {
            id: 0,
            time: no_time(),
            price: 0.0,
        },
        operate: 0,
        event: 0,
    })
}

// Writes the counts and the places: H, R, C, where holds and records begin, and the length.
fn put_counts(b: &mut [u8], c: u32, hs: u32, rs: u32)
    requires in_bounds { 24 ≤ length b.old }
    requires c_le_bar_limit { c ≤ bar_limit }
    ensures { b.new ≡ patch b.old 0 (counts_bytes c hs rs) }
{
    put_u32(b, 0, hs);
    put_u32(b, 4, rs);
    put_u32(b, 8, c);
    put_u32(b, 12, 96);
    put_u32(b, 16, 96 + 32 * c);
    put_u32(b, 20, 96 + 64 * c);
}

// Writes the eight bytes behind the counts: the position, whether it changed, what is present, the reference's operate and two zeros.
fn put_flags(b: &mut [u8], h: Head)
    requires { 32 ≤ length b.old }
    ensures { b.new ≡ patch b.old 24 (flags_bytes h) }
{
    put_bytes(
        b,
        24,
        &[
            pos_code(h.pos),
            u8::from(h.changed),
            u8::from(h.long.is_some()),
            u8::from(h.short.is_some()),
            u8::from(h.reference.is_some()),
            last_of(h.reference).operate,
            0,
            0,
        ],
    );
}

// Writes the end and the two opens, zero where there is none. The long open's offset is before its instant.
fn put_times(b: &mut [u8], h: Head)
    requires { 68 ≤ length b.old }
    ensures { b.new ≡ patch b.old 32 (times_bytes h.end (open_time h.long) (open_time h.short)) }
{
    let long = h.long.unwrap_or(no_time());
    put_time(b, 32, h.end);
    put_i32(b, 44, long.offset);
    put_i64(b, 48, long.instant.0);
    put_time(b, 56, h.short.unwrap_or(no_time()));
}

// Writes the event of a reference, but for its operate.
fn put_last(b: &mut [u8], r: LastEvent)
    requires in_bounds { 96 ≤ length b.old }
    requires price_value { finite r.bar.price ≡ true }
    ensures { b.new ≡ patch b.old 68 (last_bytes r) }
{
    put_u32(b, 68, r.bar.id);
    put_time(b, 72, r.bar.time);
    put_u32(b, 84, r.event);
    put_f64(b, 88, r.bar.price);
}

// Writes the header h of a book of c bars with so many holds and records.
pub fn put_head(b: &mut [u8], c: u32, hs: u32, rs: u32, h: Head)
    requires in_bounds { 96 ≤ length b.old }
    requires c_le_bar_limit { c ≤ bar_limit }
    requires reference_value { priced h.reference ≡ true }
    ensures { b.new ≡ patch b.old 0 (head_bytes c hs rs h) }
{
    put_counts(b, c, hs, rs);
    put_flags(b, h);
    put_times(b, h);
    put_last(b, last_of(h.reference));
}
