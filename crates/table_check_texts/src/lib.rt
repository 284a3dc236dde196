// Whether the texts of a table are clean, all at one look.
#![tactic(auto)]

ghost use Rattle.std.specs.Prelude.{◌≡◌, [], ◌∷◌};
ghost use Rattle.table.specs.Layout.{parts_in};
ghost use Rattle.table.specs.Read.{Headed};
ghost use Rattle.table_check_texts.specs.Check.{all_cut, texts_ok};

use table::{Counts, Places};
use table_words::{is_clean, is_cut};

// Whether s may be cut at each of four places.
#[tactic(auto, unfolding(text::specs::Conditions::all_of))]
fn cuts_ok(s: &[u8], symbol: usize, names: usize, keytexts: usize, valuetexts: usize) -> bool
    ensures { result ≡ all_cut s.now (symbol ∷ names ∷ keytexts ∷ valuetexts ∷ []) }
{
    is_cut(s, symbol) && is_cut(s, names) && is_cut(s, keytexts) && is_cut(s, valuetexts)
}

// Whether the texts are clean, where the header is right: the position's, the events' names, the keys, the values. They follow each other, so that
// one look at them all is enough where each may be cut off from the next.
pub fn texts_ok(t: &[u8], c: Counts, p: Places) -> bool
    requires { Headed t.now c p }
    ensures { result ≡ texts_ok (parts_in t.now) }
{
    let start = p.texts as usize;
    let texts = &t[start..p.used as usize];
    is_clean(texts)
        && cuts_ok(
            texts,
            c.name as usize,
            p.names as usize - start,
            p.keytexts as usize - start,
            p.valuetexts as usize - start,
        )
}
