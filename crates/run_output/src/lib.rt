// The lines that the run program prints, written to a buffer: a feed, a pair row, a hold row, a refusal.
#![tactic(auto)]

ghost use Rattle.std.specs.Prelude.{[], ◌∷◌, not, ◌+◌, ◌-◌, ◌≤◌, T, length};
ghost use Rattle.std.specs.Float.Ieee.{is_nan};
ghost use Rattle.le.specs.Le.{part};
ghost use Rattle.text.specs.Literal.{bytes};
ghost use Rattle.text.specs.Number.{decimal_of, integer_of};
ghost use Rattle.text.specs.Read.{Put};
ghost use Rattle.position.specs.Run.{line, hex_bits, yield_text, side_text, flag_text, pair_line, hold_line};
ghost use Rattle.run_fields.specs.Fields.{fields_text, ShortPut, YieldShown};
ghost use Rattle.run_output.specs.Shown.{feed_room, pair_room, hold_room, pair_in, HoldShown, PairShown};

use position::{HoldRow, PairRow};
use run_fields::{
    decimal_field, integer_field, last_decimal, last_yield, put_flag, put_side, real_field,
    text_field, yield_field,
};
use text::{LF, PIPE, put_byte};
use text_write::put_decimal;

// The most bytes of a line: of a feed or a refusal, of a pair row, of a hold row.
pub const FEED_ROOM: usize = 64;

pub const PAIR_ROOM: usize = 2304;

pub const HOLD_ROOM: usize = 128;

// `E|number`.
pub fn put_refusal(out: &mut [u8], at: usize, number: u32) -> usize
    requires { at + feed_room ≤ length out.old }
    ensures { Put out.old out.new at (line (bytes "E" ∷ decimal_of number ∷ [])) result }
{
    let a = text_field(out, at, b"E", 0, 1);
    let b = put_decimal(out, a, number as u64);
    put_byte(out, b, LF)
}

// `F|answer|pos|changed`.
pub fn put_feed(out: &mut [u8], at: usize, number: u32, pos: i32, changed: bool) -> usize
    requires { at + feed_room ≤ length out.old }
    ensures { Put out.old out.new at (line (bytes "F" ∷ decimal_of number ∷ integer_of pos ∷ flag_text changed ∷ [])) result }
{
    let a = text_field(out, at, b"F", 0, 1);
    let b = decimal_field(out, a, number as u64);
    let c = integer_field(out, b, pos as i64);
    let d = put_flag(out, c, changed);
    put_byte(out, d, LF)
}

// `H|local|pos|price|yield`.
pub fn put_hold(out: &mut [u8], at: usize, o: HoldRow) -> usize
    requires hold_room_in_bounds { at + hold_room ≤ length out.old }
    requires hold_shown { HoldShown o }
    ensures { Put out.old out.new at (hold_line o) result }
{
    let a = text_field(out, at, b"H", 0, 1);
    let b = integer_field(out, a, o.local.micros());
    let c = integer_field(out, b, o.pos as i64);
    let d = real_field(out, c, o.price);
    last_yield(out, d, o.n1b)
}

// The fields of a pair row up to the sequence's: both local times, both prices, the id difference.
fn pair_numbers(out: &mut [u8], at: usize, p: PairRow) -> usize
    requires at_in_bounds { at + 100 ≤ length out.old }
    requires t { T (not (is_nan p.from)) }
    requires t_2 { T (not (is_nan p.to)) }
    ensures { ShortPut 100 out.old out.new at (fields_text (integer_of p.opened.0 ∷ integer_of p.closed.0 ∷ hex_bits p.from ∷ hex_bits p.to ∷ integer_of p.ids ∷ [])) result }
{
    let a = integer_field(out, at, p.opened.micros());
    let b = integer_field(out, a, p.closed.micros());
    let c = real_field(out, b, p.from);
    let d = real_field(out, c, p.to);
    integer_field(out, d, p.ids)
}

// The first fields of a pair row: symbol, mark and side.
fn pair_names(out: &mut [u8], at: usize, p: PairRow, buffer: &[u8]) -> usize
    requires mark_in_bounds { p.symbol + p.mark ≤ length buffer.now }
    requires mark_in_bounds_2 { at + (p.symbol + p.mark) + 6 ≤ length out.old }
    ensures { ShortPut (p.symbol + p.mark + 6) out.old out.new at (fields_text (bytes "R" ∷ part buffer.now 0 p.symbol ∷ part buffer.now p.symbol p.mark ∷ side_text p.side ∷ [])) result }
{
    let mark = p.symbol + p.mark;
    let a = text_field(out, at, b"R", 0, 1);
    let b = text_field(out, a, buffer, 0, p.symbol);
    let c = text_field(out, b, buffer, p.symbol, mark);
    let d = put_side(out, c, p.side);
    put_byte(out, d, PIPE)
}

// The last fields of a pair row: days, the yield and the lots.
fn pair_figures(out: &mut [u8], at: usize, p: PairRow) -> usize
    requires at_in_bounds { at + 55 ≤ length out.old }
    requires t { T (not (is_nan p.days)) }
    requires yield_shown { YieldShown p.bp }
    ensures { Put out.old out.new at (line (hex_bits p.days ∷ yield_text p.bp ∷ decimal_of p.lots ∷ [])) result }
{
    let a = real_field(out, at, p.days);
    let b = yield_field(out, a, p.bp);
    last_decimal(out, b, p.lots as u64)
}

// `R|symbol|mark|side|opened|closed|from|to|ids|sequence|days|yield|lots`, with the texts of the row buffer.
pub fn put_pair(out: &mut [u8], at: usize, p: PairRow, buffer: &[u8]) -> usize
    requires pair_room_in_bounds { at + pair_room ≤ length out.old }
    requires pair_shown { PairShown p buffer.now }
    ensures { Put out.old out.new at (pair_line (pair_in p buffer.now)) result }
{
    let from = p.symbol + p.mark;
    let to = from + p.sequence;
    let a = pair_names(out, at, p, buffer);
    let b = pair_numbers(out, a, p);
    let c = text_field(out, b, buffer, from, to);
    pair_figures(out, c, p)
}
