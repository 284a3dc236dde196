// Whether a text is UTF-8, and texts that stand alone.
//
// One pass: blocks of ASCII and of common characters are looked at as a whole, all others are taken one by one.
#![tactic(auto)]

ghost use Rattle.std.specs.Prelude.{◌≡◌, ◌+◌, ◌<◌, ◌≤◌, length, drop};
ghost use Rattle.utf8.specs.Utf8.{utf8};
ghost use Rattle.utf8.specs.Alone.{alone};
ghost use Rattle.utf8.specs.Read.{CharAt};
ghost use Rattle.utf8_text.specs.Read.{alone_of};

use utf8::character;
use utf8_ascii::{skip_ascii, skip_blocks};
use utf8_common::{BLOCK, is_common, skip_common};

// The most bytes of a text.
pub const TEXT_LIMIT: usize = 16384;

// Why a text that stands alone is refused.
#[derive(Clone, Copy)]
pub enum AloneError {
    TooLong,
    NotUtf8,
    Marked,
}

// Takes the ASCII from i on, or the character of several bytes at i.
fn next(s: &[u8], i: usize) -> Option<usize>
    requires { i < length s.now }
    ensures { CharAt s.now (i + 1) (utf8 (drop i s.now)) result }
{
    if is_common(s, i) {
        Some(i + 3)
    } else if 0x7f < s[i] {
        character(s, i)
    } else {
        Some(skip_ascii(s, skip_blocks(s, i + 1)))
    }
}

// Takes whole characters from i on, as many as make a block, or all.
fn stretch(s: &[u8], i: usize) -> Option<usize>
    requires { i < length s.now }
    ensures { CharAt s.now (i + 1) (utf8 (drop i s.now)) result }
{
    let end = i + BLOCK.min(s.len() - i);
    let mut j = i;
    while j < end {
        j = next(s, j)?;
    }
    Some(j)
}

// Whether s is UTF-8.
pub fn valid(s: &[u8]) -> bool
    ensures { result ≡ utf8 s.now }
{
    let mut i = skip_common(s, 0);
    while i < s.len() {
        let Some(r) = stretch(s, i) else {
            return false;
        };
        i = skip_common(s, r);
    }
    true
}

// Whether a text may stand alone, or the first reason to refuse it.
#[tactic(auto, unfolding(utf8::specs::Alone::text, utf8::specs::Alone::alone))]
pub fn check_alone(s: &[u8]) -> Result<(), AloneError>
    ensures { alone_of result ≡ alone s.now }
{
    if TEXT_LIMIT < s.len() {
        Err(AloneError::TooLong)
    } else if !valid(s) {
        Err(AloneError::NotUtf8)
    } else if text::contains(s, text::PIPE) || text::contains(s, text::LF) {
        Err(AloneError::Marked)
    } else {
        Ok(())
    }
}
