// The first match: which event of a compiled table a bar's signals choose.
//
// A function that asks for a table `t` asks for one that was accepted. The bar's signals are the text `s` with the places and
// fingerprints of its n lines, as `event_signals::read_signals` leaves them.
#![tactic(auto)]

ghost use Rattle.std.specs.Prelude.{◌≡◌, true, ◌&&◌, [], ◌<◌, ◌≤◌, length, get_or, Some};
ghost use Rattle.std.proofs.Math.Seq.{slice};
ghost use Rattle.text.specs.Read.{Part};
ghost use Rattle.signal.specs.Value.{value_of};
ghost use Rattle.sheet.specs.Sheet.{kind_of};
ghost use Rattle.event.specs.Match.{agrees as Match·agrees, met_by, holds, matches};
ghost use Rattle.event_find.specs.Places.{lines_at, LinesOk};
ghost use Rattle.table.specs.Layout.{counts_in, between};
ghost use Rattle.table.specs.Table.{is_table, text_at};
ghost use Rattle.table_match.specs.Rows.{text_of, WordAmong, keys_of, values_of, clause_from, event_from, CodeIn, ClauseIn, EventIn};
ghost use Rattle.table_match.specs.First.{reached, step_of, of_number, FirstAs, MatchAs};

use event_find::{find_line, fingerprint};
use signal::read_value;
use table::{
    ClauseRow, EventRow, WILD_CODE, clause_at, event_at, read_counts, read_places, word_at,
    word_text,
};
use text::part_eq;

// The bytes from..to of a table.
#[tactic(auto, unfolding(le::specs::Le::part))]
fn section(t: &[u8], from: u32, to: u32) -> &[u8]
    requires { (from ≤ to) × (to ≤ length t.now) }
    ensures { result.now ≡ between t.now from to }
{
    &t[from as usize..to as usize]
}

// The text of word number i.
fn text_at<'a>(rows: &[u8], texts: &'a [u8], i: usize) -> &'a [u8]
    requires { WordAmong rows.now texts.now i }
    ensures { result.now ≡ text_of rows.now texts.now i }
{
    word_text(texts, word_at(rows, i))
}

// The text of key number k.
fn key_text(t: &[u8], k: usize) -> &[u8]
    requires t_value { is_table t.now ≡ true }
    requires k_bound { k < (counts_in t.now).keys }
    ensures { result.now ≡ get_or (keys_of t.now) k [] }
{
    let p = read_places(t);
    let rows = section(t, p.keys, p.values);
    text_at(rows, section(t, p.keytexts, p.valuetexts), k)
}

// The text of value number v, from 0.
fn value_text(t: &[u8], v: usize) -> &[u8]
    requires t_value { is_table t.now ≡ true }
    requires v_bound { v < (counts_in t.now).values }
    ensures { result.now ≡ get_or (values_of t.now) v [] }
{
    let p = read_places(t);
    let rows = section(t, p.values, p.texts);
    text_at(rows, section(t, p.valuetexts, p.used), v)
}

// Whether the score of a bar's value is at least a clause's own.
fn reaches(own: u16, score: i32) -> bool
    ensures { result ≡ reached own (Some score) }
{
    own as i32 <= score
}

// Whether the value with that code is wild, or is v in from..to.
fn agrees(t: &[u8], code: u16, v: &[u8], from: usize, to: usize) -> bool
    requires t_value { is_table t.now ≡ true }
    requires code_in { CodeIn t.now code }
    requires part { Part v.now from to }
    ensures { result ≡ Match·agrees (text_at (values_of t.now) code) (slice from to v.now) }
{
    if code as usize == WILD_CODE {
        return true;
    }
    let own = value_text(t, code as usize - 1);
    part_eq(own, 0, own.len(), v, from, to)
}

// Whether a bar's value v meets a clause.
#[tactic(auto, using(crate::proofs::Clauses::met_is, crate::proofs::Clauses::clause_v1, crate::proofs::Clauses::clause_v2, crate::proofs::Clauses::clause_v3))]
fn meets(t: &[u8], c: ClauseRow, v: &[u8]) -> bool
    requires t_value { is_table t.now ≡ true }
    requires clause_in { ClauseIn t.now c }
    ensures { result ≡ met_by (clause_from t.now c).signal (value_of v.now) }
{
    let Some(a) = read_value(v) else {
        return false;
    };
    reaches(c.score, a.score)
        && agrees(t, c.v1, v, 0, a.v1)
        && agrees(t, c.v2, v, a.v1 + 1, a.v2)
        && agrees(t, c.v3, v, a.v2 + 1, a.v3)
}

// Whether a clause holds.
fn clause_holds(
    t: &[u8],
    c: ClauseRow,
    s: &[u8],
    starts: &[usize],
    mids: &[usize],
    prints: &[u16],
    n: usize,
) -> bool
    requires t_value { is_table t.now ≡ true }
    requires clause_in { ClauseIn t.now c }
    requires lines_ok { LinesOk s.now starts.now mids.now prints.now n }
    ensures { result ≡ holds (lines_at s.now starts.now mids.now n) (clause_from t.now c).signal }
{
    let key = key_text(t, c.key as usize);
    let h = fingerprint(key, 0, key.len());
    let Some(i) = find_line(key, h, s, starts, mids, prints, n) else {
        return false;
    };
    let from = mids[i] + 1;
    let to = starts[i + 1] - 1;
    meets(t, c, &s[from..to])
}

// What is known of an event after one clause more.
fn step(k: u8, kind: u16, held: bool) -> u8
    requires { k < 3 }
    ensures { (result ≡ step_of k (kind_of kind) held) × (result < 4) }
{
    match kind {
        0 => { if held { k } else { 3 } }
        1 => {
            if held {
                2
            } else if k == 0 {
                1
            } else {
                k
            }
        }
        _ => { if held { 3 } else { k } }
    }
}

// Whether an event matches: clause by clause, up to the first that decides against it.
fn event_matches(
    t: &[u8],
    e: EventRow,
    s: &[u8],
    starts: &[usize],
    mids: &[usize],
    prints: &[u16],
    n: usize,
) -> bool
    requires t_value { is_table t.now ≡ true }
    requires event_in { EventIn t.now e }
    requires lines_ok { LinesOk s.now starts.now mids.now prints.now n }
    ensures { result ≡ matches (lines_at s.now starts.now mids.now n) (event_from t.now e) }
{
    let p = read_places(t);
    let rows = section(t, p.clauses, p.keys);
    let first = e.first as usize;
    let end = first + e.count as usize;
    let mut k: u8 = 0;
    for i in first..end {
        let c = clause_at(rows, i);
        k = step(k, c.kind, clause_holds(t, c, s, starts, mids, prints, n));
        if k == 3 {
            return false;
        }
    }
    k != 1
}

// Whether an event is of that kind and matches.
fn is_hit(
    t: &[u8],
    e: EventRow,
    kind: u16,
    s: &[u8],
    starts: &[usize],
    mids: &[usize],
    prints: &[u16],
    n: usize,
) -> bool
    requires t_value { is_table t.now ≡ true }
    requires event_in { EventIn t.now e }
    requires kind_bound { kind ≤ 1 }
    requires lines_ok { LinesOk s.now starts.now mids.now prints.now n }
    ensures { result ≡ (of_number kind (event_from t.now e) && matches (lines_at s.now starts.now mids.now n) (event_from t.now e)) }
{
    e.kind % 2 == kind && event_matches(t, e, s, starts, mids, prints, n)
}

// The first event of that kind that matches.
fn find_event(
    t: &[u8],
    kind: u16,
    s: &[u8],
    starts: &[usize],
    mids: &[usize],
    prints: &[u16],
    n: usize,
) -> Option<usize>
    requires t_value { is_table t.now ≡ true }
    requires kind_bound { kind ≤ 1 }
    requires lines_ok { LinesOk s.now starts.now mids.now prints.now n }
    ensures { FirstAs kind t.now s.now starts.now mids.now n result }
{
    let count = read_counts(t).events as usize;
    let p = read_places(t);
    let rows = section(t, p.events, p.clauses);
    for i in 0..count {
        let e = event_at(rows, i);
        if is_hit(t, e, kind, s, starts, mids, prints, n) {
            return Some(i);
        }
    }
    None
}

// The first event that matches, openings before exits.
pub fn first_match(
    t: &[u8],
    s: &[u8],
    starts: &[usize],
    mids: &[usize],
    prints: &[u16],
    n: usize,
) -> Option<usize>
    requires t_value { is_table t.now ≡ true }
    requires lines_ok { LinesOk s.now starts.now mids.now prints.now n }
    ensures { MatchAs t.now s.now starts.now mids.now n result }
{
    let opening = find_event(t, 0, s, starts, mids, prints, n);
    if let Some(_) = opening {
        return opening;
    }
    find_event(t, 1, s, starts, mids, prints, n)
}
