// Definitions: the book's bytes, its checks, and fresh, feed, save and restore; and why a book is not opened. The crates `book_*` have the code.
#![tactic(auto)]

ghost use Rattle.std.specs.Prelude.{◌≡◌};
ghost use Rattle.book.specs.Opened.{open_refusal};

// The lengths of a header, and of a hold or a record; and the most bars.
pub const HEAD_LENGTH: usize = 96;

pub const ENTRY_LENGTH: usize = 32;

pub const BAR_LIMIT: usize = 1_000_000;

// Why a book is not opened: bytes of another length, bytes that are no table, or that are no book of the table.
#[derive(Clone, Copy)]
pub enum OpenError {
    WrongLength,
    NotTable,
    NotBook,
}

impl OpenError {
    // The number of the answer.
    pub fn number(self) -> u32
        ensures { result ≡ open_refusal self }
    {
        match self {
            OpenError::WrongLength => 8,
            OpenError::NotTable => 9,
            OpenError::NotBook => 10,
        }
    }
}
