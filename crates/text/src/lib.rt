// Texts: lines, fields and parts found in lent bytes, compared and copied.
//
// A place is an index of the lent bytes, and a part is from..to of them.
#![tactic(auto)]

ghost use Rattle.std.specs.Prelude.{◌≡◌, [], ◌∷◌, ◌+◌, ◌-◌, ◌<◌, ◌≤◌, length, replicate};
ghost use Rattle.std.proofs.Math.Seq.{slice};
ghost use Rattle.text.specs.Text.{same, has, split};
ghost use Rattle.text.specs.Read.{Part, FirstAt, Put};

// What ends a line, and what stands between fields and between parts.
pub const LF: u8 = b'\n';

pub const PIPE: u8 = b'|';

pub const UNDERSCORE: u8 = b'_';

// The place of the first b of s in from..to, or to where there is none: the end of a line, a field or a part.
pub fn find(s: &[u8], from: usize, to: usize, b: u8) -> usize
    requires { Part s.now from to }
    ensures { FirstAt s.now from to b result }
{
    for i in from..to {
        if s[i] == b {
            return i;
        }
    }
    to
}

// How many parts the separators b make of s in from..to.
pub fn count_parts(s: &[u8], from: usize, to: usize, b: u8) -> usize
    requires { Part s.now from to }
    ensures { result ≡ length (split b (slice from to s.now)) }
{
    let mut n = 1;
    for i in from..to {
        if s[i] == b {
            n += 1;
        }
    }
    n
}

// Whether b stands in s.
pub fn contains(s: &[u8], b: u8) -> bool
    ensures { result ≡ has b s.now }
{
    s.contains(&b)
}

// Whether a in a0..a1 and b in b0..b1 are the same bytes.
pub fn part_eq(a: &[u8], a0: usize, a1: usize, b: &[u8], b0: usize, b1: usize) -> bool
    requires part { Part a.now a0 a1 }
    requires part_2 { Part b.now b0 b1 }
    ensures { result ≡ same (slice a0 a1 a.now) (slice b0 b1 b.now) }
{
    &a[a0..a1] == &b[b0..b1]
}

// Fills dst with zeros.
pub fn clear(dst: &mut [u8])
    ensures { dst.new ≡ replicate (length dst.old) 0 }
{
    dst.fill(0);
}

// Writes the byte b to dst at `at`, and answers the place behind it.
pub fn put_byte(dst: &mut [u8], at: usize, b: u8) -> usize
    requires { at < length dst.old }
    ensures { Put dst.old dst.new at (b ∷ []) result }
{
    dst[at] = b;
    at + 1
}

// Copies src in from..to to dst at `at`, and answers the place behind it.
pub fn put_part(dst: &mut [u8], at: usize, src: &[u8], from: usize, to: usize) -> usize
    requires part { Part src.now from to }
    requires from_in_bounds { at + (to - from) ≤ length dst.old }
    ensures { Put dst.old dst.new at (slice from to src.now) result }
{
    let end = at + (to - from);
    dst[at..end].copy_from_slice(&src[from..to]);
    end
}
