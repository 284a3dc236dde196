// Definitions only: the plain machine, its values, the rows that they give and the run program's text. The crate `position_machine` has
// the step in code.
#![tactic(auto)]

use bar::{Bar, LocalTime, Time};
use double::{Side, Yield};

#[derive(Clone, Copy, PartialEq, Eq)]
pub enum Pos {
    Short,
    Flat,
    Long,
}

// The bar and the event of an LO or SO.
#[derive(Clone, Copy)]
pub struct LastEvent {
    pub bar: Bar,
    pub operate: u8,
    pub event: u32,
}

// The event that a bar's signals choose: its operate, its index, by which its name is had, and its lots.
#[derive(Clone, Copy)]
pub struct Choice {
    pub operate: u8,
    pub event: u16,
    pub lots: u16,
}

// What a bar changes beside the lists of records and holds: with the times of the two sides' last openings, if there were any, and the last LO or SO,
// against which stops and timeouts are taken, if there was one.
#[derive(Clone, Copy)]
pub struct Head {
    pub pos: Pos,
    pub changed: bool,
    pub end: Time,
    pub long: Option<Time>,
    pub short: Option<Time>,
    pub reference: Option<LastEvent>,
}

// A record's description: an event by its index, a stop, or a timeout.
#[derive(Clone, Copy)]
pub enum Description {
    Event(u16),
    Stop,
    Timeout,
}

// An operation: an opening or a closing, with the position after it, and the lots opened or closed.
#[derive(Clone, Copy)]
pub struct Record {
    pub bar: Bar,
    pub operate: u8,
    pub pos: Pos,
    pub description: Description,
    pub lots: u16,
}

// The position at the end of a bar, the yield up to the next bar (the Rust's n1b), and the open lots: 0 when Flat.
#[derive(Clone, Copy)]
pub struct Hold {
    pub time: Time,
    pub pos: Pos,
    pub price: f64,
    pub n1b: Yield,
    pub lots: u16,
}

// A pair as a row: its side, both local times, both prices, the id difference, days, the yield, the lengths of symbol, mark and
// sequence in the row buffer, and the lots opened.
#[derive(Clone, Copy)]
pub struct PairRow {
    pub side: Side,
    pub opened: LocalTime,
    pub closed: LocalTime,
    pub from: f64,
    pub to: f64,
    pub ids: i64,
    pub days: f64,
    pub bp: Yield,
    pub symbol: usize,
    pub mark: usize,
    pub sequence: usize,
    pub lots: u16,
}

// A hold as a row: its local time, -1, 0 or 1, its price and its yield.
#[derive(Clone, Copy)]
pub struct HoldRow {
    pub local: LocalTime,
    pub pos: i32,
    pub price: f64,
    pub n1b: Yield,
}

// What a feed says of an accepted bar, and what decided it, if anything did.
#[derive(Clone, Copy)]
pub struct Report {
    pub pos: Pos,
    pub changed: bool,
    pub decision: Option<Description>,
}
