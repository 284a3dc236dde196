// Definitions: what a position sheet says, its limits, why a text is none, and what the code keeps of one that it read.
//
// What is kept are numbers: places in the text, six numbers for each event and nine for each clause.
#![tactic(auto)]

ghost use Rattle.std.specs.Prelude.{◌≡◌};
ghost use Rattle.sheet.specs.declared.SheetError.TheVariants as SheetError;

use signal::SignalError;

// The most events and clauses of a sheet.

pub const EVENT_LIMIT: usize = 32;

pub const CLAUSE_LIMIT: usize = 256;

// The most bytes of a name or a symbol.
pub const NAME_LIMIT: usize = 256;

// The highest interval in seconds, timeout in bars, stop in hundredths of a basis point, t0, and minutes before midnight.
pub const INTERVAL_LIMIT: u64 = 4_102_444_800;

pub const TIMEOUT_LIMIT: u64 = 2_147_483_647;

pub const STOP_LIMIT: u64 = 100_000_000;

pub const T0_LIMIT: u64 = 1;

pub const EVENING_LIMIT: u64 = 1_439;

// The most lots of an event.
pub const LOTS_LIMIT: u64 = 1_000;

// How many numbers are kept of an event: its kind (0 opening or 1 exit, and twice the lots beyond the first), the operate, where the name starts,
// its length, the first clause, how many clauses.
pub const EVENT_NUMBERS: usize = 6;

// And of a clause: 0 all, 1 any or 2 not, where the signal starts, the places behind its parts k1, k2, k3, v1, v2, v3 counted from there, the score.
pub const CLAUSE_NUMBERS: usize = 9;

// A sheet that was read: the places behind the name and behind the symbol, the settings, and how many events and clauses there are.
#[derive(Clone, Copy)]
pub struct SheetAt {
    pub name: usize,
    pub symbol: usize,
    pub interval: u64,
    pub timeout: u64,
    pub stop: u64,
    pub t0: u64,
    pub evening: u64,
    pub events: usize,
    pub clauses: usize,
}

// Why a text is no sheet.
#[derive(Clone, Copy)]
pub enum SheetError {
    PastLimit,
    NotUtf8,
    Malformed,
    BadNumber,
    UnknownOperate,
    Signal(SignalError),
    BadLots,
}

impl From<SignalError> for SheetError {
    ghost from_gives = { λ e r. r ≡ SheetError.Signal e };

    fn from(e: SignalError) -> SheetError {
        SheetError::Signal(e)
    }
}
