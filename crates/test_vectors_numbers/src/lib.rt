// Code only: questions about numbers: a function for each kind takes the fields behind the letter, asks the leaf, and shows the answer.
#![tactic(auto)]

ghost use Rattle.std.specs.Prelude.{◌≡◌, length};

use std::io;
use test_console::ask::field;
use test_console::show::next;
use test_console::{ask, show};

// Eight bytes written somewhere in a buffer.
fn stored(v: u64) -> [u8; 16]
    ensures { 16 ≡ length result }
{
    let mut space = [0u8; 16];
    le::put_u64(&mut space, 3, v);
    space
}

// A u32, an i32, an i64 and a u16, each written and read again.
fn u32_again(v: u32) -> u32 {
    let mut space = [0u8; 8];
    le::put_u32(&mut space, 1, v);
    le::get_u32(&space, 1)
}

fn i32_again(v: i32) -> i32 {
    let mut space = [0u8; 8];
    le::put_i32(&mut space, 1, v);
    le::get_i32(&space, 1)
}

fn i64_again(v: i64) -> i64 {
    let mut space = [0u8; 16];
    le::put_i64(&mut space, 1, v);
    le::get_i64(&space, 1)
}

fn u16_again(v: u16) -> u16 {
    let mut space = [0u8; 8];
    le::put_u16(&mut space, 1, v);
    le::get_u16(&space, 1)
}

// B|bits: what the eight bytes hold as a u64, an i64 and a double, the first four as a u32 and an i32, and the first two as a u16.
pub fn bytes(rt: &impl Print, s: &[u8]) -> io::Result<()> {
    let space = stored(ask::bits(s));
    show::number(rt, le::get_u64(&space, 3))?;
    next(rt)?;
    show::signed(rt, i64_again(le::get_i64(&space, 3)))?;
    next(rt)?;
    show::number(rt, u32_again(le::get_u32(&space, 3)) as u64)?;
    next(rt)?;
    show::signed32(rt, i32_again(le::get_i32(&space, 3)))?;
    next(rt)?;
    show::number(rt, u16_again(le::get_u16(&space, 3)) as u64)?;
    next(rt)?;
    show::stored(rt, le::get_f64(&space, 3))
}

// N|text: how many parts the underscores make.
pub fn parts(rt: &impl Print, s: &[u8]) -> io::Result<()> {
    show::number(
        rt,
        text::count_parts(s, 0, s.len(), text::UNDERSCORE) as u64,
    )
}

// D|digits|limit: the number of 1 to limit digits.
pub fn decimal(rt: &impl Print, s: &[u8]) -> io::Result<()> {
    let digits = field(s, 0);
    let limit = ask::number(field(s, 1));
    if 18 < limit {
        return Ok(());
    }
    show::maybe(
        rt,
        text_number::decimal(digits, 0, digits.len(), limit as usize),
    )
}

// I|text: the i32 that it is.
pub fn int(rt: &impl Print, s: &[u8]) -> io::Result<()> {
    show::int(rt, text_number::read_i32(s, 0, s.len()))
}

// W|bits: a number in plain decimal and as 16 hexadecimal digits.
pub fn written(rt: &impl Print, s: &[u8]) -> io::Result<()> {
    let v = ask::bits(s);
    let mut decimal = [0u8; 20];
    let n = text_write::put_decimal(&mut decimal, 0, v);
    show::part(rt, &decimal, 0, n)?;
    next(rt)?;
    let mut hex = [0u8; 16];
    text_write::put_hex(&mut hex, 0, v);
    show::text(rt, &hex)
}

// F|bits: whether the double is finite.
pub fn finite(rt: &impl Print, s: &[u8]) -> io::Result<()> {
    show::flag(rt, double::is_finite(ask::real(s)))
}

// R|bits: rounded to a whole number.
pub fn round(rt: &impl Print, s: &[u8]) -> io::Result<()> {
    show::real(rt, double::round_away(ask::real(s)))
}

// H|own|next: a hold's yield.
pub fn hold_yield(rt: &impl Print, s: &[u8]) -> io::Result<()> {
    let own = ask::real(field(s, 0));
    let later = ask::real(field(s, 1));
    show::yields(rt, double::hold_yield(own, later))
}

// P|side|opening|closing: a pair's yield.
pub fn pair_yield(rt: &impl Print, s: &[u8]) -> io::Result<()> {
    let side = ask::side(field(s, 0));
    let opening = ask::real(field(s, 1));
    let closing = ask::real(field(s, 2));
    show::yields(rt, double::pair_yield(side, opening, closing))
}

// K|side|stop|reference|price: whether the stop is hit.
pub fn stop(rt: &impl Print, s: &[u8]) -> io::Result<()> {
    let side = ask::side(field(s, 0));
    let stop = ask::real(field(s, 1));
    let reference = ask::real(field(s, 2));
    let price = ask::real(field(s, 3));
    show::flag(rt, double::stop_hit(side, stop, reference, price))
}

// Z|field: the hundredths that it says as a sheet's stop.
pub fn stop_field(rt: &impl Print, s: &[u8]) -> io::Result<()> {
    show::maybe(rt, stop::read_stop(s, 0, s.len(), 100_000_000))
}

// z|hundredths: the text and the double of a stop.
pub fn stop_shown(rt: &impl Print, s: &[u8]) -> io::Result<()> {
    let h = ask::number(s);
    if 100_000_000 < h {
        return Ok(());
    }
    let mut space = [0u8; 23];
    let n = stop::put_stop(&mut space, 0, h);
    show::part(rt, &space, 0, n)?;
    next(rt)?;
    show::real(rt, stop::stop_double(h))
}

// T|instant|offset|minutes: the local time, and its day where a day opens so many minutes before midnight.
pub fn time(rt: &impl Print, s: &[u8]) -> io::Result<()> {
    let instant = ask::instant(field(s, 0));
    let offset = ask::offset(field(s, 1));
    let evening = (ask::number(field(s, 2)) % 65536) as u16;
    let local = instant.local(offset);
    show::signed(rt, local.micros())?;
    next(rt)?;
    show::signed(rt, local.day(evening))
}

// G|year|month|day: the number of the day, where there is one.
pub fn day(rt: &impl Print, s: &[u8]) -> io::Result<()> {
    let y = ask::number(field(s, 0));
    let m = ask::number(field(s, 1));
    let d = ask::number(field(s, 2));
    if calendar::is_day(y, m, d) {
        show::number(rt, calendar::day_number(y, m, d))
    } else {
        show::text(rt, b"-")
    }
}

// E|earlier|later: the whole seconds between two instants, and their days.
pub fn seconds(rt: &impl Print, s: &[u8]) -> io::Result<()> {
    let earlier = ask::instant(field(s, 0));
    let later = ask::instant(field(s, 1));
    let n = earlier.seconds_to(later);
    show::signed(rt, n)?;
    next(rt)?;
    show::real(rt, double::days(n))
}
