// Writes the rows of a compiled table: of the events, of the clauses, of the words.
//
// A function that puts something writes it to dst from `at` on, and answers the place behind it.
#![tactic(auto)]

ghost use Rattle.std.specs.Prelude.{◌≡◌, ◌+◌, ◌*◌, ◌<◌, ◌≤◌, length};
ghost use Rattle.le.specs.Field.{put16};
ghost use Rattle.sheet.specs.Places.{event_numbers, clause_numbers};
ghost use Rattle.table.specs.Layout.{event_length, clause_length, word_length};
ghost use Rattle.table_layout.specs.Build.{event_bytes, clause_bytes, word_bytes, row_bytes};
ghost use Rattle.table_parts.specs.Draft.{event_row_of, clause_row_of, word_row, word_rows, clause_rows, event_rows};
ghost use Rattle.table_write_rows.specs.Rows.{PutOf, EventsFit, ClausesFit, WordsFit, WordFit};

use sheet::{CLAUSE_NUMBERS, EVENT_NUMBERS};
use table::{ClauseRow, EventRow, WordRow};

// How many codes of values a clause has.
const CLAUSE_CODES: usize = 3;

// Writes v in two bytes.
pub fn put_two(dst: &mut [u8], at: usize, v: u16) -> usize
    requires { at + 2 ≤ length dst.old }
    ensures { PutOf 2 dst.old dst.new at (put16 v) result }
{
    le::put_u16(dst, at, v);
    at + 2
}

// The row of the event whose numbers stand first in l, with its name at `at` of the names.
fn event_row(l: &[u16], at: usize) -> EventRow
    requires event_numbers_in_bounds { event_numbers ≤ length l.now }
    requires at_bound { at < 65536 }
    ensures { result ≡ event_row_of l.now at }
{
    EventRow {
        kind: l[0],
        operate: l[1],
        at: at as u16,
        len: l[3],
        first: l[4],
        count: l[5],
    }
}

// Writes the row of an event.
fn put_event(dst: &mut [u8], at: usize, e: EventRow) -> usize
    requires { at + event_length ≤ length dst.old }
    ensures { PutOf event_length dst.old dst.new at (event_bytes e) result }
{
    let p = put_two(dst, at, e.kind);
    let p = put_two(dst, p, e.operate);
    let p = put_two(dst, p, e.at);
    let p = put_two(dst, p, e.len);
    let p = put_two(dst, p, e.first);
    put_two(dst, p, e.count)
}

// Writes the rows of n events, whose names stand one after another.
pub fn put_events(dst: &mut [u8], at: usize, es: &[u16], n: usize) -> usize
    requires events_fit { EventsFit es.now n }
    requires n_in_bounds { at + event_length * n ≤ length dst.old }
    ensures { PutOf (event_length * n) dst.old dst.new at (row_bytes event_bytes (event_rows es.now n)) result }
{
    let mut p = at;
    let mut names = 0;
    for i in 0..n {
        let b = EVENT_NUMBERS * i;
        let e = event_row(&es[b..], names);
        p = put_event(dst, p, e);
        names += e.len as usize;
    }
    p
}

// The row of the clause whose numbers stand first in l, with its key and its values' codes.
fn clause_row(l: &[u16], key: u16, v: &[u16]) -> ClauseRow
    requires clause_numbers_in_bounds { clause_numbers ≤ length l.now }
    requires in_bounds { 3 ≤ length v.now }
    ensures { result ≡ clause_row_of l.now key v.now }
{
    ClauseRow {
        kind: l[0],
        key,
        v1: v[0],
        v2: v[1],
        v3: v[2],
        score: l[8],
    }
}

// Writes the row of a clause.
fn put_clause(dst: &mut [u8], at: usize, c: ClauseRow) -> usize
    requires { at + clause_length ≤ length dst.old }
    ensures { PutOf clause_length dst.old dst.new at (clause_bytes c) result }
{
    let p = put_two(dst, at, c.kind);
    let p = put_two(dst, p, c.key);
    let p = put_two(dst, p, c.v1);
    let p = put_two(dst, p, c.v2);
    let p = put_two(dst, p, c.v3);
    put_two(dst, p, c.score)
}

// Writes the rows of n clauses.
pub fn put_clauses(
    dst: &mut [u8],
    at: usize,
    cs: &[u16],
    numbers: &[u16],
    codes: &[u16],
    n: usize,
) -> usize
    requires clauses_fit { ClausesFit cs.now numbers.now codes.now n }
    requires n_in_bounds { at + clause_length * n ≤ length dst.old }
    ensures { PutOf (clause_length * n) dst.old dst.new at (row_bytes clause_bytes (clause_rows cs.now numbers.now codes.now n)) result }
{
    let mut p = at;
    for clause in 0..n {
        let b = CLAUSE_NUMBERS * clause;
        let d = CLAUSE_CODES * clause;
        p = put_clause(dst, p, clause_row(&cs[b..], numbers[clause], &codes[d..]));
    }
    p
}

// The row of word i.
fn word_row(starts: &[u16], orders: &[u16], ranks: &[u16], i: usize) -> WordRow
    requires { WordFit starts.now orders.now ranks.now i }
    ensures { result ≡ word_row starts.now orders.now ranks.now i }
{
    let from = starts[i];
    let to = starts[i + 1];
    WordRow {
        at: from,
        len: to - from,
        rank: ranks[i],
        order: orders[i],
    }
}

// Writes the row of a word.
fn put_word(dst: &mut [u8], at: usize, w: WordRow) -> usize
    requires { at + word_length ≤ length dst.old }
    ensures { PutOf word_length dst.old dst.new at (word_bytes w) result }
{
    let p = put_two(dst, at, w.at);
    let p = put_two(dst, p, w.len);
    let p = put_two(dst, p, w.rank);
    put_two(dst, p, w.order)
}

// Writes the rows of n words.
pub fn put_words(
    dst: &mut [u8],
    at: usize,
    starts: &[u16],
    orders: &[u16],
    ranks: &[u16],
    n: usize,
) -> usize
    requires words_fit { WordsFit starts.now orders.now ranks.now n }
    requires n_in_bounds { at + word_length * n ≤ length dst.old }
    ensures { PutOf (word_length * n) dst.old dst.new at (row_bytes word_bytes (word_rows starts.now orders.now ranks.now n)) result }
{
    let mut p = at;
    for i in 0..n {
        p = put_word(dst, p, word_row(starts, orders, ranks, i));
    }
    p
}
