// Stops in basis points with up to two decimals, kept as hundredths: read from a field, written as a text, and as a double.
#![tactic(auto)]

ghost use Rattle.std.specs.Prelude.{◌≡◌, ◌+◌, ◌-◌, ◌^◌, ◌≤◌, length, Some};
ghost use Rattle.std.proofs.Math.Seq.{slice};
ghost use Rattle.text.specs.Number.{digits_to};
ghost use Rattle.text.specs.Read.{Part, Put};
ghost use Rattle.stop.specs.Stop.{unit_of, together, stop_in, stop_text, stop_double};

use text::{find, put_byte};
use text_number::decimal;
use text_write::put_decimal;

// What stands before the decimals.
const POINT: u8 = b'.';

// The hundredths that the one or two decimals from..to of s say.
fn read_decimals(s: &[u8], from: usize, to: usize) -> Option<u64>
    requires { Part s.now from to }
    ensures { result ≡ together (Some 0) (digits_to 2 (slice from to s.now)) (unit_of (to - from)) }
{
    let d = decimal(s, from, to, 2)?;
    if to - from == 1 {
        Some(d * 10)
    } else {
        Some(d)
    }
}

// The hundredths that the field from..to of s says, where they are not above hi: 1 to 10 digits, and perhaps a point and one or two more.
pub fn read_stop(s: &[u8], from: usize, to: usize, hi: u64) -> Option<u64>
    requires { Part s.now from to }
    ensures { result ≡ stop_in hi (slice from to s.now) }
{
    let point = find(s, from, to, POINT);
    let whole = decimal(s, from, point, 10)?;
    let behind = if point == to {
        0
    } else {
        read_decimals(s, point + 1, to)?
    };
    let h = whole * 100 + behind;
    (h <= hi).then_some(h)
}

// Writes h hundredths as a stop to dst at `at`, where 23 bytes are left, and answers the place behind it.
pub fn put_stop(dst: &mut [u8], at: usize, h: u64) -> usize
    requires { at + 23 ≤ length dst.old }
    ensures { Put dst.old dst.new at (stop_text h) result }
{
    let whole = put_decimal(dst, at, h / 100);
    let f = h % 100;
    if f == 0 {
        return whole;
    }
    let point = put_byte(dst, whole, POINT);
    let tenths = put_byte(dst, point, b'0' + (f / 10) as u8);
    if f % 10 == 0 {
        return tenths;
    }
    put_byte(dst, tenths, b'0' + (f % 10) as u8)
}

// h hundredths as a double of basis points.
pub fn stop_double(h: u64) -> f64
    requires { h ≤ 2 ^ 53 }
    ensures { result ≡ stop_double h }
{
    h as f64 / 100.0
}
