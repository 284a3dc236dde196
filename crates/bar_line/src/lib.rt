// Definitions only: a line of the exchange's comma file. The crates `bar_line_*` have the code.

// The time that a line says: an instant in microseconds from 1970 UTC, and the offset of its wall clock in seconds.
#![tactic(auto)]

#[derive(Clone, Copy)]
pub struct Stamp {
    pub instant: i64,
    pub offset: i64,
}
