// Reading what a question gives. What is missing or malformed reads as 0.
ghost use Rattle.std.specs.Prelude.{◌<◌, ◌≤◌, ◌^◌, length};
ghost use Rattle.std.specs.Int.Signed.{mag};
ghost use Rattle.test_console.specs.Counts.{IsPrefixLen};

use bar::Instant;
use double::Side;
use text::PIPE;

// The field k of s, from 0, or an empty one.
pub fn field<'a>(s: &'a [u8], k: usize) -> &'a [u8] {
    s.split(|b| *b == PIPE).nth(k).unwrap_or(&s[..0])
}

// Up to 18 digits.
pub fn number(s: &[u8]) -> u64 {
    text_number::decimal(s, 0, s.len(), 18).unwrap_or(0)
}

// A place in bytes, in digits.
pub fn place(s: &[u8]) -> usize {
    number(s) as usize
}

// 16 hexadecimal digits.
pub fn bits(s: &[u8]) -> u64 {
    text_number::read_hex(s, 0, s.len()).unwrap_or(0)
}

// An i64: up to 18 digits, perhaps behind `-`, or `x` and the 16 hexadecimal digits of its bits.
pub fn signed(s: &[u8]) -> i64 {
    match s {
        [b'-', digits @ ..] => le::to_i64(number(digits).wrapping_neg()),
        [b'x', digits @ ..] => le::to_i64(bits(digits)),
        _ => le::to_i64(number(s)),
    }
}

// The double of 16 hexadecimal digits.
pub fn real(s: &[u8]) -> f64 {
    le::real_of(bits(s)).unwrap_or(0.0 / 0.0)
}

// An instant, in digits.
pub fn instant(s: &[u8]) -> Instant
    ensures { mag result.0 < 2 ^ 61 }
{
    let v = number(s);
    if v < 2305843009213693952 {
        Instant(v as i64)
    } else {
        Instant(0)
    }
}

// An offset, as an i32 is read.
pub fn offset(s: &[u8]) -> i32 {
    text_number::read_i32(s, 0, s.len()).unwrap_or(0)
}

// L or S.
pub fn side(s: &[u8]) -> Side {
    if text::contains(s, b'S') {
        Side::Short
    } else {
        Side::Long
    }
}

// The value of a hexadecimal digit.
fn nibble(digit: u8) -> u8
    ensures { result ≤ 15 }
{
    if digit <= b'9' {
        digit % 16
    } else {
        (digit % 16 + 9) % 16
    }
}

// The bytes that pairs of hexadecimal digits write, as many as there is room for, and their number.
pub fn pairs(s: &[u8], out: &mut [u8]) -> usize
    ensures { IsPrefixLen result out.new }
{
    let n = out.len().min(s.len() / 2);
    for i in 0..n {
        out[i] = nibble(s[2 * i]) * 16 + nibble(s[2 * i + 1]);
    }
    n
}
