// The texts of a table: which may stand in it, and where one may be cut.
#![tactic(auto)]

ghost use Rattle.std.specs.Prelude.{◌≡◌, not, cond, eqb, drop};
ghost use Rattle.text.specs.Text.{has};
ghost use Rattle.table_words.specs.Words.{clean};
ghost use Rattle.table_words.specs.Read.{plain, is_cut};

use text::{LF, PIPE};

// 1 where b is x, else m.
fn met(m: u8, b: u8, x: u8) -> u8
    ensures { result ≡ cond (eqb b x) 1 m }
{
    if b == x { 1 } else { m }
}

// Whether no byte of s is x: the loop has no way out before the end, so that the compiler looks at many bytes at once.
fn lacks(s: &[u8], x: u8) -> bool
    ensures { result ≡ not (has x s.now) }
{
    let mut m: u8 = 0;
    for i in 0..s.len() {
        m = met(m, s[i], x);
    }
    m == 0
}

// Whether s is free of | and LF.
#[tactic(auto, unfolding(text::specs::Conditions::all_of))]
fn is_plain(s: &[u8]) -> bool
    ensures { result ≡ plain s.now }
{
    lacks(s, PIPE) && lacks(s, LF)
}

// Whether s may stand in a table.
#[tactic(auto, unfolding(text::specs::Conditions::all_of, crate::specs::Words::clean))]
pub fn is_clean(s: &[u8]) -> bool
    ensures { result ≡ clean s.now }
{
    utf8_text::valid(s) && is_plain(s)
}

// Whether s may be cut at i: no tail of a character stands there.
pub fn is_cut(s: &[u8], i: usize) -> bool
    ensures { result ≡ is_cut (drop i s.now) }
{
    s.len() <= i || !(0x80..=0xbf).contains(&s[i])
}
