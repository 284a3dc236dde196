// The fields of the lines that the run program prints, written to a buffer: numbers, doubles, yields, sides, texts.
#![tactic(auto)]

ghost use Rattle.std.specs.Prelude.{[], ◌∷◌, ◌++◌, not, ◌+◌, ◌-◌, ◌≤◌, T, length};
ghost use Rattle.std.specs.Float.Ieee.{is_nan};
ghost use Rattle.std.proofs.Math.Seq.{slice};
ghost use Rattle.text.specs.Number.{decimal_of, integer_of};
ghost use Rattle.text.specs.Read.{Part, Put};
ghost use Rattle.text.specs.Text.{pipe};
ghost use Rattle.position.specs.Run.{line, hex_bits, yield_text, side_text, flag_text};
ghost use Rattle.run_fields.specs.Fields.{ShortPut, YieldShown};

use double::{Side, Yield};
use text::{LF, PIPE, put_byte, put_part};
use text_write::{put_decimal, put_hex};

// A whole number in plain decimal.
fn put_integer(out: &mut [u8], at: usize, v: i64) -> usize
    requires { at + 21 ≤ length out.old }
    ensures { ShortPut 21 out.old out.new at (integer_of v) result }
{
    let digits = if v < 0 { put_byte(out, at, b'-') } else { at };
    put_decimal(out, digits, v.unsigned_abs())
}

// The bits of a double.
fn put_real(out: &mut [u8], at: usize, x: f64) -> usize
    requires at_in_bounds { at + 16 ≤ length out.old }
    requires t { T (not (is_nan x)) }
    ensures { ShortPut 16 out.old out.new at (hex_bits x) result }
{
    put_hex(out, at, x.to_bits())
}

// The bits of a yield, or `-`.
fn put_yield(out: &mut [u8], at: usize, y: Yield) -> usize
    requires at_in_bounds { at + 16 ≤ length out.old }
    requires yield_shown { YieldShown y }
    ensures { ShortPut 16 out.old out.new at (yield_text y) result }
{
    match y {
        Yield::Bp(x) => put_real(out, at, x),
        Yield::Absent => put_byte(out, at, b'-'),
    }
}

// L or S.
pub fn put_side(out: &mut [u8], at: usize, side: Side) -> usize
    requires { at + 1 ≤ length out.old }
    ensures { ShortPut 1 out.old out.new at (side_text side) result }
{
    let letter = match side {
        Side::Long => b'L',
        Side::Short => b'S',
    };
    put_byte(out, at, letter)
}

// 1 or 0.
pub fn put_flag(out: &mut [u8], at: usize, t: bool) -> usize
    requires { at + 1 ≤ length out.old }
    ensures { ShortPut 1 out.old out.new at (flag_text t) result }
{
    put_byte(out, at, if t { b'1' } else { b'0' })
}

// A whole number that other fields follow.
pub fn integer_field(out: &mut [u8], at: usize, v: i64) -> usize
    requires { at + 22 ≤ length out.old }
    ensures { ShortPut 22 out.old out.new at (integer_of v ++ pipe ∷ []) result }
{
    let end = put_integer(out, at, v);
    put_byte(out, end, PIPE)
}

// A natural number that other fields follow.
pub fn decimal_field(out: &mut [u8], at: usize, v: u64) -> usize
    requires { at + 21 ≤ length out.old }
    ensures { ShortPut 21 out.old out.new at (decimal_of v ++ pipe ∷ []) result }
{
    let end = put_decimal(out, at, v);
    put_byte(out, end, PIPE)
}

// The bits of a double that other fields follow.
pub fn real_field(out: &mut [u8], at: usize, x: f64) -> usize
    requires at_in_bounds { at + 17 ≤ length out.old }
    requires t { T (not (is_nan x)) }
    ensures { ShortPut 17 out.old out.new at (hex_bits x ++ pipe ∷ []) result }
{
    let end = put_real(out, at, x);
    put_byte(out, end, PIPE)
}

// A text, from..to of s, that other fields follow.
pub fn text_field(out: &mut [u8], at: usize, s: &[u8], from: usize, to: usize) -> usize
    requires part { Part s.now from to }
    requires from_in_bounds { at + (to - from) + 1 ≤ length out.old }
    ensures { ShortPut (to - from + 1) out.old out.new at (slice from to s.now ++ pipe ∷ []) result }
{
    let end = put_part(out, at, s, from, to);
    put_byte(out, end, PIPE)
}

// A yield that other fields follow.
pub fn yield_field(out: &mut [u8], at: usize, y: Yield) -> usize
    requires at_in_bounds { at + 17 ≤ length out.old }
    requires yield_shown { YieldShown y }
    ensures { ShortPut 17 out.old out.new at (yield_text y ++ pipe ∷ []) result }
{
    let end = put_yield(out, at, y);
    put_byte(out, end, PIPE)
}

// The last field of a line: a natural number.
pub fn last_decimal(out: &mut [u8], at: usize, v: u64) -> usize
    requires { at + 21 ≤ length out.old }
    ensures { Put out.old out.new at (line (decimal_of v ∷ [])) result }
{
    let end = put_decimal(out, at, v);
    put_byte(out, end, LF)
}

// The last field of a line: a yield.
pub fn last_yield(out: &mut [u8], at: usize, y: Yield) -> usize
    requires at_in_bounds { at + 17 ≤ length out.old }
    requires yield_shown { YieldShown y }
    ensures { Put out.old out.new at (line (yield_text y ∷ [])) result }
{
    let end = put_yield(out, at, y);
    put_byte(out, end, LF)
}
