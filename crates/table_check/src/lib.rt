// Whether bytes are a table.
#![tactic(auto)]

ghost use Rattle.std.specs.Prelude.{◌≡◌, true};
ghost use Rattle.table.specs.Layout.{parts_in};
ghost use Rattle.table.specs.Table.{is_table};
ghost use Rattle.table.specs.Read.{Headed};
ghost use Rattle.table_check_texts.specs.Check.{texts_ok};
ghost use Rattle.table_check.specs.Check.{rows_ok, vocabulary_ok};

use table::{Counts, Places, read_counts, read_places};
use table_check_clauses::clauses_ok;
use table_check_events::events_ok;
use table_check_head::head_ok;
use table_check_texts::texts_ok;
use table_check_words::words_ok;

// The most parts of a key and of a value.
pub const KEY_PARTS: usize = 3;

pub const VALUE_PARTS: usize = 1;

// Whether the events and the clauses are right, where the header and the texts are.
fn rows_ok(t: &[u8], c: Counts, p: Places) -> bool
    requires headed { Headed t.now c p }
    requires t_value { texts_ok (parts_in t.now) ≡ true }
    ensures { result ≡ rows_ok (parts_in t.now) }
{
    let events = &t[p.events as usize..p.clauses as usize];
    let clauses = &t[p.clauses as usize..p.keys as usize];
    let names = &t[p.names as usize..p.keytexts as usize];
    let n = c.clauses as usize;
    events_ok(events, names, c.events as usize, n)
        && clauses_ok(clauses, n, c.keys as usize, c.values as usize)
}

// Whether the keys and the values are right, where the header and the texts are.
fn vocabulary_ok(t: &[u8], c: Counts, p: Places) -> bool
    requires headed { Headed t.now c p }
    requires t_value { texts_ok (parts_in t.now) ≡ true }
    ensures { result ≡ vocabulary_ok (parts_in t.now) }
{
    let keys = &t[p.keys as usize..p.values as usize];
    let values = &t[p.values as usize..p.texts as usize];
    let keytexts = &t[p.keytexts as usize..p.valuetexts as usize];
    let valuetexts = &t[p.valuetexts as usize..p.used as usize];
    words_ok(keys, keytexts, c.keys as usize, KEY_PARTS)
        && words_ok(values, valuetexts, c.values as usize, VALUE_PARTS)
}

// Whether t is a table.
#[tactic(auto, using(crate::proofs::Parts::headed_as, crate::proofs::Parts::head_long, crate::proofs::Parts::table_head, crate::proofs::Parts::table_is))]
pub fn is_table(t: &[u8]) -> bool
    ensures { result ≡ is_table t.now }
{
    if !head_ok(t) {
        return false;
    }
    let c = read_counts(t);
    let p = read_places(t);
    texts_ok(t, c, p) && rows_ok(t, c, p) && vocabulary_ok(t, c, p)
}
