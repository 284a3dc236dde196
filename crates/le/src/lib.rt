// Little-endian numbers at an offset of a byte slice: unsigned, signed in two's complement, and doubles.
#![tactic(auto)]

ghost use Rattle.std.specs.Prelude.{◌≡◌, not, T, ◌+◌, ◌<◌, ◌≤◌, length};
ghost use Rattle.std.specs.Float.{binary64};
ghost use Rattle.std.specs.Float.Ieee.{to_bits, nan_bits, is_nan};
ghost use Rattle.le.specs.Le.{part, patch, le_bytes, le_nat, sign_bits, signed};
ghost use Rattle.le.specs.Real.{real_of};

// A byte as a u32, with its bound for the caller.
pub fn wide(b: u8) -> u32
    ensures { (result ≡ b) × (result < 256) }
{
    b as u32
}

// The u16 that starts at `at`.
pub fn get_u16(s: &[u8], at: usize) -> u16
    requires { at + 2 ≤ length s.now }
    ensures { result ≡ le_nat (part s.now at 2) }
{
    u16::from_le_bytes([s[at], s[at + 1]])
}

// Writes a u16 from `at` on.
pub fn put_u16(s: &mut [u8], at: usize, v: u16)
    requires { at + 2 ≤ length s.old }
    ensures { s.new ≡ patch s.old at (le_bytes 2 v) }
{
    s[at..at + 2].copy_from_slice(&v.to_le_bytes());
}

// The u32 that starts at `at`.
pub fn get_u32(s: &[u8], at: usize) -> u32
    requires { at + 4 ≤ length s.now }
    ensures { result ≡ le_nat (part s.now at 4) }
{
    u32::from_le_bytes([s[at], s[at + 1], s[at + 2], s[at + 3]])
}

// Writes a u32 from `at` on.
pub fn put_u32(s: &mut [u8], at: usize, v: u32)
    requires { at + 4 ≤ length s.old }
    ensures { s.new ≡ patch s.old at (le_bytes 4 v) }
{
    s[at..at + 4].copy_from_slice(&v.to_le_bytes());
}

// The i32 that starts at `at`.
pub fn get_i32(s: &[u8], at: usize) -> i32
    requires { at + 4 ≤ length s.now }
    ensures { result ≡ signed 31 (le_nat (part s.now at 4)) }
{
    get_u32(s, at).cast_signed()
}

// Writes an i32 from `at` on.
pub fn put_i32(s: &mut [u8], at: usize, v: i32)
    requires { at + 4 ≤ length s.old }
    ensures { s.new ≡ patch s.old at (le_bytes 4 (sign_bits 31 v)) }
{
    put_u32(s, at, v.cast_unsigned());
}

// The u64 that starts at `at`.
pub fn get_u64(s: &[u8], at: usize) -> u64
    requires { at + 8 ≤ length s.now }
    ensures { result ≡ le_nat (part s.now at 8) }
{
    u64::from_le_bytes([
        s[at],
        s[at + 1],
        s[at + 2],
        s[at + 3],
        s[at + 4],
        s[at + 5],
        s[at + 6],
        s[at + 7],
    ])
}

// Writes a u64 from `at` on.
pub fn put_u64(s: &mut [u8], at: usize, v: u64)
    requires { at + 8 ≤ length s.old }
    ensures { s.new ≡ patch s.old at (le_bytes 8 v) }
{
    s[at..at + 8].copy_from_slice(&v.to_le_bytes());
}

// The i64 that the bits stand for.
pub fn to_i64(b: u64) -> i64
    ensures { result ≡ signed 63 b }
{
    b.cast_signed()
}

// The i64 that starts at `at`.
pub fn get_i64(s: &[u8], at: usize) -> i64
    requires { at + 8 ≤ length s.now }
    ensures { result ≡ signed 63 (le_nat (part s.now at 8)) }
{
    to_i64(get_u64(s, at))
}

// Writes an i64 from `at` on.
pub fn put_i64(s: &mut [u8], at: usize, v: i64)
    requires { at + 8 ≤ length s.old }
    ensures { s.new ≡ patch s.old at (le_bytes 8 (sign_bits 63 v)) }
{
    put_u64(s, at, v.cast_unsigned());
}

// Whether the bits are a NaN's: without the sign they are above infinity's.
pub fn is_nan_bits(b: u64) -> bool
    ensures { result ≡ nan_bits binary64 b }
{
    0x7ff0_0000_0000_0000 < b % 0x8000_0000_0000_0000
}

// What the bits hold.
#[tactic(auto, unfolding(crate::specs::Real::real_of))]
pub fn real_of(b: u64) -> Option<f64>
    ensures { result ≡ real_of b }
{
    if is_nan_bits(b) {
        None
    } else {
        Some(f64::from_bits(b))
    }
}

// What the eight bytes from `at` on hold.
pub fn get_f64(s: &[u8], at: usize) -> Option<f64>
    requires { at + 8 ≤ length s.now }
    ensures { result ≡ real_of (le_nat (part s.now at 8)) }
{
    real_of(get_u64(s, at))
}

// Writes a double from `at` on.
pub fn put_f64(s: &mut [u8], at: usize, x: f64)
    requires { (at + 8 ≤ length s.old) × (T (not (is_nan x))) }
    ensures { s.new ≡ patch s.old at (le_bytes 8 (to_bits binary64 x)) }
{
    put_u64(s, at, x.to_bits());
}
