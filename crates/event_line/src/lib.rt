// One line of a bar's signals: where its two fields end.
#![tactic(auto)]

ghost use Rattle.std.specs.Prelude.{◌+◌, ◌≤◌, ◌<◌, length};
ghost use Rattle.event_line.specs.Fields.{Placed, FieldEnd, LineFrom};

use text::{LF, PIPE};

// The places of a line's `|` and of its LF.
#[derive(Clone, Copy)]
pub struct LineEnds {
    pub mid: usize,
    pub end: usize,
}

// k where b ends a field, else 64.
fn place(b: u8, k: u8) -> u8
    ensures { Placed b k result }
{
    if b == LF || b == PIPE { k } else { 64 }
}

// How many of 64 bytes from i on stand before the first that ends a field: each is looked at, with no way out before the end, so that the compiler looks at
// many at once.
fn plain_block(s: &[u8], i: usize) -> usize
    requires { i + 64 ≤ length s.now }
    ensures { FieldEnd s.now i (i + 64) (i + result) }
{
    let mut first: u8 = 64;
    for k in 0..64 {
        first = first.min(place(s[i + k as usize], k));
    }
    first as usize
}

// The place of the first byte from `from` on that ends a field, or the end: byte by byte.
fn near_end(s: &[u8], from: usize) -> usize
    requires { from ≤ length s.now }
    ensures { FieldEnd s.now from (length s.now) result }
{
    let n = s.len();
    for i in from..n {
        let b = s[i];
        if b == LF || b == PIPE {
            return i;
        }
    }
    n
}

// The place of the first byte from `from` on that ends a field, or the end.
fn field_end(s: &[u8], from: usize) -> usize
    requires { from ≤ length s.now }
    ensures { FieldEnd s.now from (length s.now) result }
{
    let n = s.len();
    let mut i = from;
    // A while loop: whole blocks, then the place where none is left is handed on.
    while 64 <= n - i {
        let k = plain_block(s, i);
        if k < 64 {
            return i + k;
        }
        i += 64;
    }
    near_end(s, i)
}

// The line of s from `from` on.
pub fn read_line(s: &[u8], from: usize) -> Option<LineEnds>
    requires { from < length s.now }
    ensures { LineFrom s.now from result }
{
    let n = s.len();
    let mid = field_end(s, from);
    if mid == n || s[mid] == LF {
        return None;
    }
    let end = field_end(s, mid + 1);
    if end == n || s[end] != LF {
        return None;
    }
    Some(LineEnds { mid, end })
}
