// The answers of a feed, of requests for rows, blocks and counts, and of names as the structs that cross to the host: zeros where they are refused.
#![tactic(auto)]

ghost use Rattle.book.specs.Opened.{opened_of};
ghost use Rattle.row.specs.Read.{row_read_of};
ghost use Rattle.std.specs.Prelude.{◌≡◌, List, [], ℕ};
ghost use Rattle.text.specs.Answer.{Refused, Got};
ghost use Rattle.book_feed.specs.Feed.{feed_of};
ghost use Rattle.position_book_answer_alone.specs.Calls.{length_answer};
ghost use Rattle.position_book_answer.specs.Rows.{decision_code, decision_event, feed_answer, yield_value, pair_answer, hold_answer, block_answer, counts_answer};

use book::OpenError;
use book_entry::{description_code, description_event};
use book_feed::FeedError;
use book_field::pos_sign;
use double::Yield;
use position::{Description, HoldRow, PairRow, Report};
use position_book_answer_alone::NameAnswer;
use row::RowError;
use row_blocks::{Block, RowCounts};
use row_blocks_holds::present;
use row_blocks_pair_write::side_sign;

// What a feed says: the position after the bar (-1, 0 or 1), whether it changed, and what decided the bar: 0 nothing, 1 an event, 2 the stop,
// 3 the timeout; the event's index where it is 1.
#[repr(C)]
#[derive(Clone, Copy, Default)]
pub struct FeedAnswer {
    pub number: u32,
    pub pos: i32,
    pub changed: u32,
    pub decision: u32,
    pub event: u32,
}

// A pair row: 1 for L or -1 for S, both local times, both prices, the id difference, days, the yield where it is present, the lengths of symbol,
// mark and sequence, and the lots opened.
#[repr(C)]
#[derive(Clone, Copy)]
pub struct PairAnswer {
    pub number: u32,
    pub side: i32,
    pub opened: i64,
    pub closed: i64,
    pub from: f64,
    pub to: f64,
    pub ids: i64,
    pub days: f64,
    pub present: u32,
    pub bp: f64,
    pub symbol: usize,
    pub mark: usize,
    pub sequence: usize,
    pub lots: u32,
}

// A hold row: its local time, -1, 0 or 1, its price, and the yield where it is present.
#[repr(C)]
#[derive(Clone, Copy)]
pub struct HoldAnswer {
    pub number: u32,
    pub local: i64,
    pub pos: i32,
    pub price: f64,
    pub present: u32,
    pub bp: f64,
}

// A block of rows: how many they are, and the length of their bytes.
#[repr(C)]
#[derive(Clone, Copy)]
pub struct BlockAnswer {
    pub number: u32,
    pub rows: usize,
    pub length: usize,
}

// How many rows of each kind a book has.
#[repr(C)]
#[derive(Clone, Copy)]
pub struct CountsAnswer {
    pub number: u32,
    pub holds: usize,
    pub pairs: usize,
}

// What decided a bar: 1 an event, 2 the stop, 3 the timeout, 0 nothing.
fn decision_code(d: Option<Description>) -> u32
    ensures { result ≡ decision_code d }
{
    d.map_or(0, |why| description_code(why) as u32)
}

// The event that decided a bar, or 0.
fn decision_event(d: Option<Description>) -> u32
    ensures { result ≡ decision_event d }
{
    d.map_or(0, |why| description_event(why) as u32)
}

// What is said of an accepted bar.
fn accepted_feed(said: Report) -> FeedAnswer
    ensures { result ≡ feed_answer (Got (record { after = []; report = said })) }
{
    FeedAnswer {
        number: 0,
        pos: pos_sign(said.pos),
        changed: u32::from(said.changed),
        decision: decision_code(said.decision),
        event: decision_event(said.decision),
    }
}

// What a feed answers, whatever the bytes at exit.
pub fn feed_answer(r: Result<Report, FeedError>) -> FeedAnswer
    ensures { (after : List ℕ) → result ≡ feed_answer (feed_of after r) }
{
    match r {
        Ok(said) => accepted_feed(said),
        Err(why) => FeedAnswer {
            number: why.number(),
            ..FeedAnswer::default()
        },
    }
}

// A yield's double, or 0 where it is absent.
fn value(y: Yield) -> f64
    ensures { result ≡ yield_value y }
{
    match y {
        Yield::Absent => 0.0,
        Yield::Bp(x) => x,
    }
}

// A pair row that is refused with a number. The zeros are written out: of a default's signed numbers and doubles each would be proved by itself.
fn refused_pair(number: u32) -> PairAnswer
    ensures { result ≡ pair_answer (Refused number) }
{
    PairAnswer {
        number,
        side: 0,
        opened: 0,
        closed: 0,
        from: 0.0,
        to: 0.0,
        ids: 0,
        days: 0.0,
        present: 0,
        bp: 0.0,
        symbol: 0,
        mark: 0,
        sequence: 0,
        lots: 0,
    }
}

// The values of a pair row.
fn found_pair(p: PairRow) -> PairAnswer
    ensures { result ≡ pair_answer (Got p) }
{
    PairAnswer {
        number: 0,
        side: side_sign(p.side),
        opened: p.opened.micros(),
        closed: p.closed.micros(),
        from: p.from,
        to: p.to,
        ids: p.ids,
        days: p.days,
        present: present(p.bp),
        bp: value(p.bp),
        symbol: p.symbol,
        mark: p.mark,
        sequence: p.sequence,
        lots: p.lots as u32,
    }
}

// What a request for a pair row answers.
pub fn pair_answer(r: Result<PairRow, RowError>) -> PairAnswer
    ensures { result ≡ pair_answer (row_read_of r) }
{
    match r {
        Ok(p) => found_pair(p),
        Err(e) => refused_pair(e.number()),
    }
}

// A hold row that is refused with a number. The zeros are written out, as in `refused_pair`.
fn refused_hold(number: u32) -> HoldAnswer
    ensures { result ≡ hold_answer (Refused number) }
{
    HoldAnswer {
        number,
        local: 0,
        pos: 0,
        price: 0.0,
        present: 0,
        bp: 0.0,
    }
}

// The values of a hold row.
fn found_hold(o: HoldRow) -> HoldAnswer
    ensures { result ≡ hold_answer (Got o) }
{
    HoldAnswer {
        number: 0,
        local: o.local.micros(),
        pos: o.pos,
        price: o.price,
        present: present(o.n1b),
        bp: value(o.n1b),
    }
}

// What a request for a hold row answers.
pub fn hold_answer(r: Result<HoldRow, RowError>) -> HoldAnswer
    ensures { result ≡ hold_answer (row_read_of r) }
{
    match r {
        Ok(o) => found_hold(o),
        Err(e) => refused_hold(e.number()),
    }
}

// What a request for a name answers.
pub fn name_answer(r: Result<usize, RowError>) -> NameAnswer
    ensures { result ≡ length_answer (row_read_of r) }
{
    match r {
        Ok(n) => NameAnswer {
            number: 0,
            length: n,
        },
        Err(e) => NameAnswer {
            number: e.number(),
            length: 0,
        },
    }
}

// What a request for a block of rows answers.
pub fn block_answer(r: Result<Block, RowError>) -> BlockAnswer
    ensures { result ≡ block_answer (row_read_of r) }
{
    match r {
        Ok(q) => BlockAnswer {
            number: 0,
            rows: q.rows,
            length: q.length,
        },
        Err(e) => BlockAnswer {
            number: e.number(),
            rows: 0,
            length: 0,
        },
    }
}

// What a request for the counts answers.
pub fn counts_answer(r: Result<RowCounts, OpenError>) -> CountsAnswer
    ensures { result ≡ counts_answer (opened_of r) }
{
    match r {
        Ok(q) => CountsAnswer {
            number: 0,
            holds: q.holds,
            pairs: q.pairs,
        },
        Err(e) => CountsAnswer {
            number: e.number(),
            holds: 0,
            pairs: 0,
        },
    }
}
