// Writes a compiled table: the header, the rows, the texts, and zeros after.
//
// A function that puts something writes it to dst from `at` on, and answers the place behind it.
#![tactic(auto)]

ghost use Rattle.std.specs.Prelude.{◌≡◌, ◌++◌, ◌+◌, ◌-◌, ◌*◌, ◌<◌, ◌≤◌, length, get_or};
ghost use Rattle.std.proofs.Math.Seq.{slice};
ghost use Rattle.le.specs.Le.{part};
ghost use Rattle.text.specs.Read.{Part, Put};
ghost use Rattle.sheet.specs.Places.{event_numbers};
ghost use Rattle.table.specs.Layout.{table_length, event_length, clause_length};
ghost use Rattle.table_layout.specs.Build.{event_bytes, clause_bytes, row_bytes, table_of};
ghost use Rattle.table_wordbook.specs.Wordbook.{words_length, lent_words};
ghost use Rattle.table_parts.specs.Draft.{clause_rows, event_rows, names_at, names_length, word_texts, draft};
ghost use Rattle.table_write_rows.specs.Rows.{PutOf, EventsFit, ClausesFit};
ghost use Rattle.table_write.specs.Fits.{NamesFit, TextsFit, TableFits};

use sheet::{EVENT_NUMBERS, SheetAt};
use table_wordbook::Words;
use table_write_head::put_head;
use table_write_rows::{put_clauses, put_events, put_words};
use text::clear;

// Copies src in from..to.
fn put_text(dst: &mut [u8], at: usize, src: &[u8], from: usize, to: usize) -> usize
    requires part { Part src.now from to }
    requires from_in_bounds { at + (to - from) ≤ length dst.old }
    ensures { PutOf (to - from) dst.old dst.new at (slice from to src.now) result }
{
    text::put_part(dst, at, src, from, to)
}

// Writes the name in s of the event whose numbers stand first in l.
fn put_name(dst: &mut [u8], at: usize, s: &[u8], l: &[u16]) -> usize
    requires event_numbers_in_bounds { event_numbers ≤ length l.now }
    requires l_in_bounds { get_or l.now 2 0 + get_or l.now 3 0 ≤ length s.now }
    requires l_in_bounds_2 { at + get_or l.now 3 0 ≤ length dst.old }
    ensures { PutOf (get_or l.now 3 0) dst.old dst.new at (part s.now (get_or l.now 2 0) (get_or l.now 3 0)) result }
{
    let from = l[2] as usize;
    let to = from + l[3] as usize;
    put_text(dst, at, s, from, to)
}

// Writes the names of n events, one after another.
fn put_names(dst: &mut [u8], at: usize, s: &[u8], es: &[u16], n: usize) -> usize
    requires names_fit { NamesFit s.now es.now n }
    requires n_in_bounds { at + names_length es.now n ≤ length dst.old }
    ensures { PutOf (names_length es.now n) dst.old dst.new at (names_at s.now es.now n) result }
{
    let mut p = at;
    for i in 0..n {
        let b = EVENT_NUMBERS * i;
        p = put_name(dst, p, s, &es[b..]);
    }
    p
}

// How long the names of n events are together.
fn names_length(es: &[u16], n: usize) -> usize
    requires n_in_bounds { event_numbers * n ≤ length es.now }
    requires n_bound { names_length es.now n ≤ table_length }
    ensures { result ≡ names_length es.now n }
{
    let mut sum = 0;
    for i in 0..n {
        sum += es[EVENT_NUMBERS * i + 3] as usize;
    }
    sum
}

// Writes the rows of the events and the clauses.
fn put_rows(
    dst: &mut [u8],
    at: usize,
    es: &[u16],
    cs: &[u16],
    a: SheetAt,
    numbers: &[u16],
    codes: &[u16],
) -> usize
    requires events_fit { EventsFit es.now a.events }
    requires clauses_fit { ClausesFit cs.now numbers.now codes.now a.clauses }
    requires clauses_in_bounds { at + event_length * a.events + clause_length * a.clauses ≤ length dst.old }
    ensures { PutOf (event_length * a.events + clause_length * a.clauses) dst.old dst.new at (row_bytes event_bytes (event_rows es.now a.events) ++ row_bytes clause_bytes (clause_rows cs.now numbers.now codes.now a.clauses)) result }
{
    let p = put_events(dst, at, es, a.events);
    put_clauses(dst, p, cs, numbers, codes, a.clauses)
}

// Writes all texts: the position's name and symbol, the events' names, the keys and the values.
fn put_texts(
    dst: &mut [u8],
    at: usize,
    s: &[u8],
    es: &[u16],
    a: SheetAt,
    keys: &Words,
    values: &Words,
) -> usize
    requires texts_fit { TextsFit s.now es.now a (lent_words keys.now) (lent_words values.now) }
    requires keys_end { keys.now.count < length keys.now.starts.now }
    requires values_end { values.now.count < length values.now.starts.now }
    requires texts_in_bounds { at + (a.name - 2) + (a.symbol - (a.name + 1)) + names_length es.now a.events + words_length (lent_words keys.now) + words_length (lent_words values.now) ≤ length dst.old }
    ensures { Put dst.old dst.new at (slice 2 a.name s.now ++ slice (a.name + 1) a.symbol s.now ++ names_at s.now es.now a.events ++ word_texts (lent_words keys.now) ++ word_texts (lent_words values.now)) result }
{
    let p = put_text(dst, at, s, 2, a.name);
    let p = put_text(dst, p, s, a.name + 1, a.symbol);
    let p = put_names(dst, p, s, es, a.events);
    let p = put_text(dst, p, keys.texts, 0, keys.end());
    put_text(dst, p, values.texts, 0, values.end())
}

// Writes the table of a sheet that was read from s: es and cs have the numbers of its events and clauses, `numbers` and `codes` their keys
// and values; then come the keys and the values themselves.
pub fn put_table(
    table: &mut [u8],
    s: &[u8],
    es: &[u16],
    cs: &[u16],
    a: SheetAt,
    numbers: &[u16],
    codes: &[u16],
    keys: &Words,
    values: &Words,
)
    requires table_len { length table.old ≡ table_length }
    requires table_fits { TableFits s.now es.now cs.now a numbers.now codes.now (lent_words keys.now) (lent_words values.now) }
    ensures { table.new ≡ table_of (draft s.now es.now cs.now a numbers.now codes.now (lent_words keys.now) (lent_words values.now)) }
{
    clear(table);
    let k = keys.count;
    let v = values.count;
    let names = names_length(es, a.events);
    let p = put_head(table, 0, a, k, v, names, keys.end(), values.end());
    let p = put_rows(table, p, es, cs, a, numbers, codes);
    let p = put_words(table, p, keys.starts, keys.orders, keys.ranks, k);
    let p = put_words(table, p, values.starts, values.orders, values.ranks, v);
    put_texts(table, p, s, es, a, keys, values);
}
