// The parts of a key or a value: whether there are few, none of them the wildcard.
#![tactic(auto)]

ghost use Rattle.std.specs.Prelude.{◌≡◌, true, false, cond, ◌+◌, ◌*◌, ◌≤◌, ◌<◌, ltb, eqb, length, drop};
ghost use Rattle.text.specs.Text.{split, underscore};
ghost use Rattle.table_words_parts.specs.Read.{fit, is_pair, paired, occurrences, Counted};

use signal::is_wild;
use text::{UNDERSCORE, find};

// 1 where a and b are the wildcard's second and third byte, else m.
fn met_pair(m: u8, a: u8, b: u8) -> u8
    ensures { result ≡ 0 → (m ≡ 0) × (is_pair a b ≡ false) }
{
    if 256 * (a as u16) + b as u16 == 0xbbbb {
        1
    } else {
        m
    }
}

// Whether no text in s can be the wildcard, since its second and third byte stand nowhere side by side: the loop has no way out before
// the end, so that the compiler looks at many bytes at once.
pub fn is_tame(s: &[u8]) -> bool
    ensures { result ≡ true → paired s.now ≡ false }
{
    let mut m: u8 = 0;
    for i in 1..s.len() {
        m = met_pair(m, s[i - 1], s[i]);
    }
    m == 0
}

// 1 where b is an underscore, else 0.
fn one(b: u8) -> u8
    ensures { (result ≡ cond (eqb b underscore) 1 0) × (result ≤ 1) }
{
    u8::from(b == UNDERSCORE)
}

// How many of the eight bytes of s from i on are underscores: the loop has no way out before the end, so that the compiler looks at them at once.
fn count_block(s: &[u8], i: usize) -> usize
    requires { i + 8 ≤ length s.now }
    ensures { (result ≤ 8) × (occurrences underscore (drop i s.now) ≡ result + occurrences underscore (drop (i + 8) s.now)) }
{
    let mut c: u8 = 0;
    for k in 0..8 {
        c += one(s[i + k]);
    }
    c as usize
}

// How many underscores the first n blocks of eight bytes of s have; or, once there are so many, at least limit.
fn count_blocks(s: &[u8], n: usize, limit: usize) -> usize
    requires { 8 * n ≤ length s.now }
    ensures { Counted s.now (8 * n) limit result }
{
    let mut c: usize = 0;
    for j in 0..n {
        c += count_block(s, 8 * j);
        if limit <= c {
            return c;
        }
    }
    c
}

// Whether c and the underscores of s from i on are fewer than limit.
fn few_behind(s: &[u8], i: usize, c: usize, limit: usize) -> bool
    requires i_in_bounds { i ≤ length s.now }
    requires c_lt_limit { c < limit }
    ensures { result ≡ ltb (c + occurrences underscore (drop i s.now)) limit }
{
    let mut d = c;
    for j in i..s.len() {
        d += one(s[j]) as usize;
        if limit <= d {
            return false;
        }
    }
    true
}

// Whether s has at most limit parts between underscores, none of them the wildcard: part by part.
fn parts_fit(s: &[u8], limit: usize) -> bool
    ensures { result ≡ fit limit (split underscore s.now) }
{
    let n = s.len();
    let mut at: usize = 0;
    for _part in 0..limit {
        let e = find(s, at, n, UNDERSCORE);
        if is_wild(s, at, e) {
            return false;
        }
        if e == n {
            return true;
        }
        at = e + 1;
    }
    false
}

// Whether s has at most limit parts between underscores, none of them the wildcard: a key has 3 at most, a value 1. Where s is tame, counting
// the underscores is enough.
pub fn few_parts(s: &[u8], limit: usize, tame: bool) -> bool
    requires { tame ≡ true → paired s.now ≡ false }
    ensures { result ≡ fit limit (split underscore s.now) }
{
    if !tame {
        return parts_fit(s, limit);
    }
    let n = s.len() / 8;
    let c = count_blocks(s, n, limit);
    c < limit && few_behind(s, 8 * n, c, limit)
}
