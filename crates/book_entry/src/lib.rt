// Holds and records in the bytes of a book: 32 bytes each, read and written.
#![tactic(auto)]

ghost use Rattle.std.specs.Prelude.{◌≡◌, true, ◌+◌, ◌≤◌, length};
ghost use Rattle.std.specs.Float.Ieee.Scale.{finite};
ghost use Rattle.le.specs.Le.{patch};
ghost use Rattle.double.specs.Double.{yield_ok};
ghost use Rattle.book.specs.Layout.{yield_flag, yield_bytes, yield_at, read_lots, hold_bytes, hold_of, description_code, description_event, description_at, record_bytes, record_of};
ghost use Rattle.book_entry.specs.Numbers.{HoldNumbers};

use bar::Bar;
use book_field::{double_at, pos_at, pos_code, put_bytes, put_time, time_at};
use double::Yield;
use position::{Description, Hold, Record};
use position_machine::held_lots;

// The yield of its presence byte and its double.
fn yield_at(flag: u8, x: f64) -> Yield
    ensures { result ≡ yield_at flag x }
{
    if flag == 0 {
        Yield::Absent
    } else {
        Yield::Bp(x)
    }
}

// Lots as they are read: 0, in a book from before them, is 1.
fn read_lots(n: u16) -> u16
    ensures { result ≡ read_lots n }
{
    n.max(1)
}

// The hold whose bytes o begins with.
pub fn hold_at(o: &[u8]) -> Hold
    requires { 32 ≤ length o.now }
    ensures { result ≡ hold_of o.now }
{
    let pos = pos_at(o[12]);
    Hold {
        time: time_at(o, 0, 8),
        pos,
        price: double_at(o, 16),
        n1b: yield_at(o[13], double_at(o, 24)),
        lots: held_lots(pos, read_lots(le::get_u16(o, 14))),
    }
}

// Whether a yield is present: 0 or 1.
fn yield_flag(y: Yield) -> u8
    ensures { result ≡ yield_flag y }
{
    match y {
        Yield::Absent => 0,
        Yield::Bp(_) => 1,
    }
}

// Writes a yield from `at` on: zeros where it is absent.
pub fn put_yield(b: &mut [u8], at: usize, y: Yield)
    requires at_in_bounds { at + 8 ≤ length b.old }
    requires y_value { yield_ok y ≡ true }
    ensures { b.new ≡ patch b.old at (yield_bytes y) }
{
    match y {
        Yield::Absent => le::put_u64(b, at, 0),
        Yield::Bp(x) => le::put_f64(b, at, x),
    }
}

// Writes a hold from `at` on.
pub fn put_hold(b: &mut [u8], at: usize, o: Hold)
    requires at_in_bounds { at + 32 ≤ length b.old }
    requires hold_numbers { HoldNumbers o }
    ensures { b.new ≡ patch b.old at (hold_bytes o) }
{
    put_time(b, at, o.time);
    put_bytes(b, at + 12, &[pos_code(o.pos), yield_flag(o.n1b)]);
    le::put_u16(b, at + 14, o.lots);
    le::put_f64(b, at + 16, o.price);
    put_yield(b, at + 24, o.n1b);
}

// The description of its code: 1 an event, 2 a stop, 3 a timeout.
fn description_at(code: u8, event: u16) -> Description
    ensures { result ≡ description_at code event }
{
    match code {
        0 | 1 => Description::Event(event),
        2 => Description::Stop,
        _ => Description::Timeout,
    }
}

// The record whose bytes o begins with.
pub fn record_at(o: &[u8]) -> Record
    requires { 32 ≤ length o.now }
    ensures { result ≡ record_of o.now }
{
    Record {
        bar: Bar {
            id: le::get_u32(o, 12),
            time: time_at(o, 0, 8),
            price: double_at(o, 16),
        },
        operate: o[24],
        pos: pos_at(o[25]),
        description: description_at(o[26], le::get_u16(o, 28)),
        lots: read_lots(le::get_u16(o, 30)),
    }
}

// The code of a description.
pub fn description_code(d: Description) -> u8
    ensures { result ≡ description_code d }
{
    match d {
        Description::Event(_) => 1,
        Description::Stop => 2,
        Description::Timeout => 3,
    }
}

// The event of a description, by its index: 0 for a stop or a timeout.
pub fn description_event(d: Description) -> u16
    ensures { result ≡ description_event d }
{
    match d {
        Description::Event(i) => i,
        Description::Stop | Description::Timeout => 0,
    }
}

// Writes a record from `at` on.
pub fn put_record(b: &mut [u8], at: usize, r: Record)
    requires at_in_bounds { at + 32 ≤ length b.old }
    requires price_value { finite r.bar.price ≡ true }
    ensures { b.new ≡ patch b.old at (record_bytes r) }
{
    put_time(b, at, r.bar.time);
    le::put_u32(b, at + 12, r.bar.id);
    le::put_f64(b, at + 16, r.bar.price);
    put_bytes(
        b,
        at + 24,
        &[
            r.operate,
            pos_code(r.pos),
            description_code(r.description),
            0,
        ],
    );
    le::put_u16(b, at + 28, description_event(r.description));
    le::put_u16(b, at + 30, r.lots);
}
