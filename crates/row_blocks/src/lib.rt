// Definitions only: blocks of rows (beyond 01), what a request for many rows of a book, or for their counts, answers.
#![tactic(auto)]

// How many rows were written, and the length of their bytes.
#[derive(Clone, Copy)]
pub struct Block {
    pub rows: usize,
    pub length: usize,
}

// How many rows of each kind a book has.
#[derive(Clone, Copy)]
pub struct RowCounts {
    pub holds: usize,
    pub pairs: usize,
}
