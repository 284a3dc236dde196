// UTF-8 (RFC 3629, section 4): one character of several bytes.
#![tactic(auto)]

ghost use Rattle.std.specs.Prelude.{◌≡◌, ◌+◌, ◌<◌, ◌≤◌, length, get_or, drop, replicate, Some};
ghost use Rattle.utf8.specs.Utf8.{utf8_tail, after, right, utf8};
ghost use Rattle.utf8.specs.Read.{needs, CharAt};

// What must follow a first byte: one byte in lo..=hi, and `more` tails.
#[derive(Clone, Copy)]
pub struct Need {
    pub lo: u8,
    pub hi: u8,
    pub more: u8,
}

// One byte in lo..=hi, and `more` tails.
fn asked(lo: u8, hi: u8, more: u8) -> Option<Need>
    ensures { result ≡ Some (record { lo = lo; hi = hi; more = more }) }
{
    Some(Need { lo, hi, more })
}

// What must follow the first byte b of a character of several bytes, if b is one.
#[tactic(auto, unfolding(crate::specs::Utf8::after))]
fn follow(b: u8) -> Option<Need>
    requires { 0x7f < b }
    ensures { needs result ≡ after b }
{
    match b {
        0xc2..=0xdf => asked(0x80, 0xbf, 0),
        0xe0 => asked(0xa0, 0xbf, 1),
        0xed => asked(0x80, 0x9f, 1),
        0xe1..=0xef => asked(0x80, 0xbf, 1),
        0xf0 => asked(0x90, 0xbf, 2),
        0xf1..=0xf3 => asked(0x80, 0xbf, 2),
        0xf4 => asked(0x80, 0x8f, 2),
        _ => None,
    }
}

// Takes `more` tails from i on.
fn tails(s: &[u8], i: usize, more: u8) -> Option<usize>
    requires { i ≤ length s.now }
    ensures { CharAt s.now i (right (Some (replicate more utf8_tail)) (drop i s.now)) result }
{
    let end = i + more as usize;
    for j in i..end {
        if !matches!(*s.get(j)?, 0x80..=0xbf) {
            return None;
        }
    }
    Some(end)
}

// Takes the character of several bytes at i.
pub fn character(s: &[u8], i: usize) -> Option<usize>
    requires { (i < length s.now) × (0x7f < get_or s.now i 0) }
    ensures { CharAt s.now (i + 1) (utf8 (drop i s.now)) result }
{
    let f = follow(s[i])?;
    let j = i + 1;
    let t = *s.get(j)?;
    if (f.lo..=f.hi).contains(&t) {
        tails(s, j + 1, f.more)
    } else {
        None
    }
}
