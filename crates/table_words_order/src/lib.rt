// The order of texts.
#![tactic(auto)]

ghost use Rattle.std.specs.Prelude.{◌≡◌, true, ◌+◌, ◌≤◌, length};
ghost use Rattle.table_words_order.specs.Read.{order_of, Level};

use std::cmp::Ordering;

// Whether the eight bytes of a and of b from i on are the same: the loop has no way out before the end, so that the compiler looks at them at once.
fn same_block(a: &[u8], b: &[u8], i: usize) -> bool
    requires i_in_bounds { i + 8 ≤ length a.now }
    requires i_in_bounds_2 { i + 8 ≤ length b.now }
    ensures { result ≡ true → Level a.now b.now i (i + 8) }
{
    let mut other = false;
    for k in 0..8 {
        other |= a[i + k] != b[i + k];
    }
    !other
}

// Goes over blocks of eight bytes that are the same in a and b.
fn skip_same(a: &[u8], b: &[u8]) -> usize
    ensures { Level a.now b.now 0 result }
{
    let n = a.len().min(b.len()) / 8;
    for j in 0..n {
        if !same_block(a, b, 8 * j) {
            return 8 * j;
        }
    }
    8 * n
}

// How a stands to b: the first byte that differs decides, or else the shorter is less.
pub fn compare(a: &[u8], b: &[u8]) -> Ordering
    ensures { result ≡ order_of a.now b.now }
{
    let n = a.len();
    let m = b.len();
    for i in skip_same(a, b)..n.min(m) {
        if a[i] != b[i] {
            return a[i].cmp(&b[i]);
        }
    }
    n.cmp(&m)
}
