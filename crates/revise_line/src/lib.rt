// The lines of a list of bars with revisions: where a line ends, and whether it is of a bar or of a signal.
#![tactic(auto)]

ghost use Rattle.std.specs.Prelude.{◌≡◌, ◌∷◌, [], ◌+◌, ◌<◌, ◌≤◌, length};
ghost use Rattle.std.proofs.Math.Seq.{slice};
ghost use Rattle.text.specs.Read.{Part};
ghost use Rattle.text.specs.Text.{pipe, begins};
ghost use Rattle.revise.specs.Lines.{is_bar, is_signal};
ghost use Rattle.revise.specs.Places.{LineEnd};
ghost use Rattle.revise_line.specs.Find.{Placed, BlockEnd, FirstLf};

use text::{LF, PIPE, find};

// k where b is LF, else 64.
fn place(b: u8, k: u8) -> u8
    ensures { Placed b k result }
{
    if b == LF { k } else { 64 }
}

// How many of 64 bytes from i on stand before the first LF: each is looked at, with no way out before the end, so that the compiler looks at many at once.
fn lf_block(s: &[u8], i: usize) -> usize
    requires { i + 64 ≤ length s.now }
    ensures { BlockEnd s.now i result }
{
    let mut first: u8 = 64;
    for k in 0..64u8 {
        first = first.min(place(s[i + k as usize], k));
    }
    first as usize
}

// The place of the first LF from `from` on, or the end: by blocks, and the rest byte by byte.
fn find_lf(s: &[u8], from: usize) -> usize
    requires { from ≤ length s.now }
    ensures { FirstLf s.now from result }
{
    let n = s.len();
    let mut i = from;
    // A while loop: it leaves at the first block that has an LF.
    while 64 <= n - i {
        let k = lf_block(s, i);
        if k < 64 {
            return i + k;
        }
        i += 64;
    }
    find(s, i, n, LF)
}

// The place behind the line of s that starts at `at`: behind its LF, or the end of s.
pub fn line_end(s: &[u8], at: usize) -> usize
    requires { at < length s.now }
    ensures { LineEnd s.now at result }
{
    let lf = find_lf(s, at);
    if lf == s.len() { lf } else { lf + 1 }
}

// Whether s in from..to begins with the tag and `|`.
fn is_tagged(s: &[u8], from: usize, to: usize, tag: u8) -> bool
    requires { Part s.now from to }
    ensures { result ≡ begins (tag ∷ pipe ∷ []) (slice from to s.now) }
{
    2 <= to - from && s[from] == tag && s[from + 1] == PIPE
}

// Whether s in from..to begins `B|`.
pub fn is_bar(s: &[u8], from: usize, to: usize) -> bool
    requires { Part s.now from to }
    ensures { result ≡ is_bar (slice from to s.now) }
{
    is_tagged(s, from, to, b'B')
}

// Whether s in from..to begins `S|`.
pub fn is_signal(s: &[u8], from: usize, to: usize) -> bool
    requires { Part s.now from to }
    ensures { result ≡ is_signal (slice from to s.now) }
{
    is_tagged(s, from, to, b'S')
}
