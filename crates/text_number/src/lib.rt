// Code only: numbers read from a part of a text: decimal, an i32, hexadecimal.
#![tactic(auto)]

ghost use Rattle.std.specs.Prelude.{◌≡◌, ◌-◌, ◌^◌, ◌<◌, ◌≤◌, pos, neg_ℤ};
ghost use Rattle.std.proofs.Math.Seq.{slice};
ghost use Rattle.text.specs.Number.{natural, at_most, digits_to, i32_of, hex_value, bits_of};
ghost use Rattle.text.specs.Read.{Part};

// The number that the digits of s in from..to write, however many, where it is not above hi.
fn magnitude(s: &[u8], from: usize, to: usize, hi: u64) -> Option<u64>
    requires part { Part s.now from to }
    requires hi_bound { hi < 10 ^ 18 }
    ensures { result ≡ at_most hi (natural (slice from to s.now)) }
{
    if from == to {
        return None;
    }
    let mut v: u64 = 0;
    for i in from..to {
        let d = s[i];
        if d < 48 || 57 < d {
            return None;
        }
        v = v * 10 + (d - 48) as u64;
        if hi < v {
            return None;
        }
    }
    Some(v)
}

// The number that the 1 to n digits of s in from..to write.
pub fn decimal(s: &[u8], from: usize, to: usize, n: usize) -> Option<u64>
    requires part { Part s.now from to }
    requires n_bound { n ≤ 18 }
    ensures { result ≡ digits_to n (slice from to s.now) }
{
    if n < to - from {
        return None;
    }
    magnitude(s, from, to, 999_999_999_999_999_999)
}

// A magnitude as an i32.
fn positive(v: u64) -> i32
    requires { v < 2 ^ 31 }
    ensures { result ≡ pos v }
{
    v as i32
}

// A magnitude below 0 as an i32.
fn negative(v: u64) -> i32
    requires { v ≤ 2 ^ 31 }
    ensures { result ≡ neg_ℤ (pos v) }
{
    (0 - (v as i64)) as i32
}

// The i32 that s in from..to writes, as Rust's `parse` reads it.
pub fn read_i32(s: &[u8], from: usize, to: usize) -> Option<i32>
    requires { Part s.now from to }
    ensures { result ≡ i32_of (slice from to s.now) }
{
    if from == to {
        return None;
    }
    let b = s[from];
    if b == b'-' {
        return Some(negative(magnitude(s, from + 1, to, 0x8000_0000)?));
    }
    if b == b'+' {
        return Some(positive(magnitude(s, from + 1, to, 0x7fff_ffff)?));
    }
    Some(positive(magnitude(s, from, to, 0x7fff_ffff)?))
}

// The value of a hexadecimal digit in lower case.
fn hex_value(x: u8) -> Option<u64>
    ensures { result ≡ hex_value x }
{
    match x {
        b'0'..=b'9' => Some((x - 48) as u64),
        b'a'..=b'f' => Some((x - 87) as u64),
        _ => None,
    }
}

// The number that the 16 lower-case hexadecimal digits of s in from..to write.
pub fn read_hex(s: &[u8], from: usize, to: usize) -> Option<u64>
    requires { Part s.now from to }
    ensures { result ≡ bits_of (slice from to s.now) }
{
    if to - from != 16 {
        return None;
    }
    let mut v: u64 = 0;
    for i in from..to {
        v = v * 16 + hex_value(s[i])?;
    }
    Some(v)
}
