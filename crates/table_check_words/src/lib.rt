// Whether the keys, or the values, of a table are right: laid one after another in their texts, of few parts, and distinct.
#![tactic(auto)]

ghost use Rattle.std.specs.Prelude.{◌≡◌, true, false, ◌+◌, ◌*◌, ◌≤◌, ◌<◌, length, drop};
ghost use Rattle.text.specs.Conditions.{all_of};
ghost use Rattle.table_words.specs.Words.{clean, less, ascending};
ghost use Rattle.table_words_parts.specs.Read.{paired};
ghost use Rattle.table.specs.Layout.{word_length, word_text};
ghost use Rattle.table.specs.Table.{words_ok};
ghost use Rattle.table_check_words.specs.Check.{word_rows, word_at, texts_of, orders_of, word_asked, laid, rank_asked, ranks_from, Inside};

use table::{WordRow, word_at, word_text};
use table_words::is_cut;
use table_words_order::compare;
use table_words_parts::{few_parts, is_tame};

// Whether a word of at most limit parts has its text at f, from where on the texts are clean; and they may be known to be tame.
#[tactic(auto, using(crate::proofs::Words::word_cut, crate::proofs::Words::word_tame), unfolding(text::specs::Conditions::all_of))]
fn word_fits(texts: &[u8], w: WordRow, f: usize, limit: usize, tame: bool) -> bool
    requires texts_value { clean (drop f texts.now) ≡ true }
    requires texts_value_2 { tame ≡ true → paired texts.now ≡ false }
    ensures { result ≡ all_of (word_asked limit texts.now w f) }
{
    let end = w.at as usize + w.len as usize;
    w.at as usize == f
        && end <= texts.len()
        && is_cut(texts, end)
        && few_parts(word_text(texts, w), limit, tame)
}

// Whether n words of at most limit parts follow each other in the texts, which are clean as a whole.
fn words_laid(rows: &[u8], texts: &[u8], n: usize, limit: usize) -> bool
    requires n_in_bounds { word_length * n ≤ length rows.now }
    requires texts_value { clean texts.now ≡ true }
    ensures { result ≡ laid limit texts.now 0 (word_rows n rows.now) }
{
    let tame = is_tame(texts);
    let mut f: usize = 0;
    for i in 0..n {
        let w = word_at(rows, i);
        if !word_fits(texts, w, f, limit, tame) {
            return false;
        }
        f = w.at as usize + w.len as usize;
    }
    f == texts.len()
}

// Whether word number i of n has an order below n, and its rank is where its number stands among the orders.
#[tactic(auto, unfolding(text::specs::Conditions::all_of))]
fn rank_ok(rows: &[u8], n: usize, i: usize) -> bool
    requires n_in_bounds { word_length * n ≤ length rows.now }
    requires i_lt_n { i < n }
    ensures { result ≡ all_of (rank_asked rows.now n i) }
{
    let w = word_at(rows, i);
    let rank = w.rank as usize;
    (w.order as usize) < n && rank < n && word_at(rows, rank).order as usize == i
}

// Whether the orders of n words are below n, and each word's rank is where its number stands among them.
fn ranks_ok(rows: &[u8], n: usize) -> bool
    requires { word_length * n ≤ length rows.now }
    ensures { result ≡ ranks_from (orders_of (word_rows n rows.now)) 0 (word_rows n rows.now) }
{
    for i in 0..n {
        if !rank_ok(rows, n, i) {
            return false;
        }
    }
    true
}

// Whether the text of word v comes before that of word w.
#[tactic(auto, using(crate::proofs::Rising::order_less))]
fn precedes(texts: &[u8], v: WordRow, w: WordRow) -> bool
    requires v_within { v.at + v.len ≤ length texts.now }
    requires w_within { w.at + w.len ≤ length texts.now }
    ensures { result ≡ less (word_text texts.now v) (word_text texts.now w) }
{
    compare(word_text(texts, v), word_text(texts, w)).is_lt()
}

// Whether the texts of n words rise along their orders.
fn rising_ok(rows: &[u8], texts: &[u8], n: usize) -> bool
    requires { Inside rows.now texts.now n }
    ensures { result ≡ ascending (texts_of texts.now (word_rows n rows.now)) (orders_of (word_rows n rows.now)) }
{
    for i in 1..n {
        let a = word_at(rows, i - 1).order as usize;
        let b = word_at(rows, i).order as usize;
        if !precedes(texts, word_at(rows, a), word_at(rows, b)) {
            return false;
        }
    }
    true
}

// Whether n words of at most limit parts are right: laid one after another in the texts, which are clean as a whole, and distinct.
#[tactic(auto, using(crate::proofs::Vocabulary::words_split, crate::proofs::Vocabulary::words_inside))]
pub fn words_ok(rows: &[u8], texts: &[u8], n: usize, limit: usize) -> bool
    requires n_in_bounds { word_length * n ≤ length rows.now }
    requires texts_value { clean texts.now ≡ true }
    ensures { result ≡ words_ok limit texts.now (word_rows n rows.now) }
{
    words_laid(rows, texts, n, limit) && ranks_ok(rows, n) && rising_ok(rows, texts, n)
}
