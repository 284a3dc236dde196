// Finding the line of a key in a bar's signals, by fingerprints of their keys.
#![tactic(auto)]

ghost use Rattle.std.specs.Prelude.{◌≡◌, false, ◌+◌, ◌≤◌, ◌<◌, length};
ghost use Rattle.std.proofs.Math.Seq.{slice};
ghost use Rattle.text.specs.Read.{Part};
ghost use Rattle.text.specs.Text.{same};
ghost use Rattle.event_find.specs.Places.{mixed, print, LinesOk};
ghost use Rattle.event_find.specs.Steps.{PrintingEnd, Others, FoundAs};

use le::{get_u32, wide};
use text::part_eq;

// A fingerprint up to a place.
#[derive(Clone, Copy)]
struct Printed {
    print: u32,
    at: usize,
}

// A fingerprint with one number more.
fn mix(h: u32, w: u32) -> u32
    ensures { result ≡ mixed h w }
{
    h.wrapping_mul(2654435761).wrapping_add(w)
}

// The fingerprint of the words of s in from..to, four bytes each, and the place behind them.
fn print_words(s: &[u8], from: usize, to: usize) -> Printed
    requires { Part s.now from to }
    ensures { PrintingEnd s.now from to result.print result.at }
{
    let mut h: u32 = 0;
    let mut i = from;
    // A while loop: whole words, then the place where none is left is handed on.
    while 4 <= to - i {
        h = mix(h, get_u32(s, i));
        i += 4;
    }
    Printed { print: h, at: i }
}

// A number that equal texts share: the fingerprint of s in from..to, by words of four bytes, then by bytes.
pub fn fingerprint(s: &[u8], from: usize, to: usize) -> u16
    requires { Part s.now from to }
    ensures { result ≡ print (slice from to s.now) }
{
    let p = print_words(s, from, to);
    let mut h = p.print;
    for i in p.at..to {
        h = mix(h, wide(s[i]));
    }
    (h >> 16) as u16
}

// Whether one of 64 lines from i on has the fingerprint h: they are counted with no way out before the end, as in `plain_block`.
fn has_print(prints: &[u16], h: u16, i: usize) -> bool
    requires { i + 64 ≤ length prints.now }
    ensures { result ≡ false → Others prints.now h i (i + 64) }
{
    let mut count: u16 = 0;
    for k in 0..64 {
        count += u16::from(prints[i + k] == h);
    }
    0 < count
}

// The start of the first block of 64 lines that has the fingerprint h, or n.
fn skip_lines(prints: &[u16], h: u16, n: usize) -> usize
    requires { (n ≤ 256) × (256 ≤ length prints.now) }
    ensures { (result ≤ n) × Others prints.now h 0 result }
{
    let mut i: usize = 0;
    // A while loop: `step_by` has no measure of its own.
    while i < n {
        if has_print(prints, h, i) {
            return i;
        }
        i += 64;
    }
    n
}

// Whether s in from..to is as long as the key and alike at both ends, in the first word (of fewer bytes, the first) and in the last
// byte: short keys that share a fingerprint mostly differ there.
fn ends_alike(key: &[u8], s: &[u8], from: usize, to: usize) -> bool
    requires { Part s.now from to }
    ensures { result ≡ false → same key.now (slice from to s.now) ≡ false }
{
    let n = key.len();
    if n != to - from {
        return false;
    }
    if 4 <= n {
        return get_u32(key, 0) == get_u32(s, from) && key[n - 1] == s[to - 1];
    }
    n == 0 || key[0] == s[from] && key[n - 1] == s[to - 1]
}

// Whether s in from..to, whose fingerprint is p, is the key, whose fingerprint is h: bytes are compared only where these are equal.
fn is_key(key: &[u8], h: u16, s: &[u8], from: usize, to: usize, p: u16) -> bool
    requires h_value { (h ≡ print key.now) × (p ≡ print (slice from to s.now)) }
    requires part { Part s.now from to }
    ensures { result ≡ same key.now (slice from to s.now) }
{
    h == p && ends_alike(key, s, from, to) && part_eq(key, 0, key.len(), s, from, to)
}

// The first of n lines that has the key, whose fingerprint is h.
pub fn find_line(
    key: &[u8],
    h: u16,
    s: &[u8],
    starts: &[usize],
    mids: &[usize],
    prints: &[u16],
    n: usize,
) -> Option<usize>
    requires h_value { h ≡ print key.now }
    requires lines_ok { LinesOk s.now starts.now mids.now prints.now n }
    ensures { FoundAs key.now s.now starts.now mids.now n result }
{
    for i in skip_lines(prints, h, n)..n {
        if is_key(key, h, s, starts[i], mids[i], prints[i]) {
            return Some(i);
        }
    }
    None
}
