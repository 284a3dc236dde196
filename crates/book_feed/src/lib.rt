// A feed: the checks in the order of document 01, then the bar's step on the book. It is cut where feeds of another kind put checks of their own:
// behind 9 (`open_table`), behind 10 (`open_book`) and before 13 (`accept_bar`).
#![tactic(auto)]

ghost use Rattle.std.specs.Prelude.{◌≡◌, true};
ghost use Rattle.event_find.specs.Places.{lines_at, LinesOk};
ghost use Rattle.table.specs.Table.{is_table};
ghost use Rattle.book.specs.Calls.{feed_do};
ghost use Rattle.book_write.specs.Write.{BookPassed, BarPassed};
ghost use Rattle.book_feed.specs.declared.FeedError.TheVariants as FeedError;
ghost use Rattle.book_feed.specs.Feed.{feed_refusal, FeedAs};
ghost use Rattle.book_feed.specs.Steps.{TableOpenedAs, BookOpenedAs, bar_do, signals_do, numbers_do};

use bar::Bar;
use bar_line_read::LineError;
use book::OpenError;
use book_feed_input::read_bar;
use book_feed_step::{is_in_time, take_bar};
use book_header::size_of;
use book_header_check::header_ok;
use event_signals::{SignalsError, read_signals};
use le::get_u32;
use position::Report;
use table_check::is_table;

// Why a feed is refused.
#[derive(Clone, Copy)]
pub enum FeedError {
    Open(OpenError),
    Line(LineError),
    BadBar,
    Signals(SignalsError),
    Late,
    Full,
}

impl FeedError {
    // The number of the answer.
    pub fn number(self) -> u32
        ensures { result ≡ feed_refusal self }
    {
        match self {
            FeedError::Signals(SignalsError::NotUtf8) => 1,
            FeedError::Signals(SignalsError::Malformed) => 2,
            FeedError::Signals(SignalsError::PastLimit) => 7,
            FeedError::Open(e) => e.number(),
            FeedError::BadBar => 11,
            FeedError::Signals(SignalsError::Twice) => 12,
            FeedError::Late => 13,
            FeedError::Full => 14,
            FeedError::Line(LineError::Malformed) => 16,
            FeedError::Line(LineError::LongPrice) => 17,
        }
    }
}

impl From<OpenError> for FeedError {
    ghost from_gives = { λ e r. r ≡ FeedError.Open e };

    fn from(e: OpenError) -> FeedError {
        FeedError::Open(e)
    }
}

impl From<LineError> for FeedError {
    ghost from_gives = { λ e r. r ≡ FeedError.Line e };

    fn from(e: LineError) -> FeedError {
        FeedError::Line(e)
    }
}

impl From<SignalsError> for FeedError {
    ghost from_gives = { λ e r. r ≡ FeedError.Signals e };

    fn from(e: SignalsError) -> FeedError {
        FeedError::Signals(e)
    }
}

// A bar with its signals read: 13, 14, or it is accepted.
pub fn accept_bar(
    t: &[u8],
    b: &mut [u8],
    c: u32,
    bar: Bar,
    s: &[u8],
    starts: &[usize],
    mids: &[usize],
    prints: &[u16],
    n: usize,
) -> Result<Report, FeedError>
    requires t_value { is_table t.now ≡ true }
    requires book_passed { BookPassed b.old c }
    requires bar_passed { BarPassed bar }
    requires lines_ok { LinesOk s.now starts.now mids.now prints.now n }
    ensures { FeedAs (bar_do t.now c bar (lines_at s.now starts.now mids.now n) b.old) b.old b.new result }
{
    if !is_in_time(b, bar) {
        return Err(FeedError::Late);
    }
    if get_u32(b, 0) >= c {
        return Err(FeedError::Full);
    }
    Ok(take_bar(t, b, c, bar, s, starts, mids, prints, n))
}

// A bar and its signals' text: the signals' refusals, 13, 14, or it is accepted.
fn feed_signals(t: &[u8], b: &mut [u8], c: u32, bar: Bar, s: &[u8]) -> Result<Report, FeedError>
    requires t_value { is_table t.now ≡ true }
    requires book_passed { BookPassed b.old c }
    requires bar_passed { BarPassed bar }
    ensures { FeedAs (signals_do t.now c bar s.now b.old) b.old b.new result }
{
    let mut starts = [0usize; 257];
    let mut mids = [0usize; 256];
    let mut prints = [0u16; 256];
    let n = read_signals(s, &mut starts, &mut mids, &mut prints)?;
    accept_bar(t, b, c, bar, s, &starts, &mids, &prints, n)
}

// A bar's four numbers and its signals' text: 11, the signals' refusals, 13, 14, or it is accepted.
pub fn feed_numbers(
    t: &[u8],
    b: &mut [u8],
    c: u32,
    id: i64,
    instant: i64,
    offset: i64,
    price: f64,
    s: &[u8],
) -> Result<Report, FeedError>
    requires t_value { is_table t.now ≡ true }
    requires book_passed { BookPassed b.old c }
    ensures { FeedAs (numbers_do t.now c (record { id = id; instant = instant; offset = offset; price = price; signals = s.now }) b.old) b.old b.new result }
{
    let bar = read_bar(id, instant, offset, price).ok_or(FeedError::BadBar)?;
    feed_signals(t, b, c, bar, s)
}

// The lengths and the table: 8, 9.
pub fn open_table(table: &[u8], b: &[u8]) -> Result<u32, OpenError>
    ensures { TableOpenedAs table.now b.now result }
{
    let c = size_of(table, b).ok_or(OpenError::WrongLength)?;
    if !is_table(table) {
        return Err(OpenError::NotTable);
    }
    Ok(c)
}

// The lengths, the table and the book's header: 8, 9, 10.
pub fn open_book(table: &[u8], b: &[u8]) -> Result<u32, OpenError>
    ensures { BookOpenedAs table.now b.now result }
{
    let c = open_table(table, b)?;
    if !header_ok(b, c) {
        return Err(OpenError::NotBook);
    }
    Ok(c)
}

// A feed of a bar and its signals into the book b, by the table.
pub fn feed_bar(
    table: &[u8],
    b: &mut [u8],
    id: i64,
    instant: i64,
    offset: i64,
    price: f64,
    signals: &[u8],
) -> Result<Report, FeedError>
    ensures { FeedAs (feed_do table.now b.old (record { id = id; instant = instant; offset = offset; price = price; signals = signals.now })) b.old b.new result }
{
    let c = open_book(table, b)?;
    feed_numbers(table, b, c, id, instant, offset, price, signals)
}
