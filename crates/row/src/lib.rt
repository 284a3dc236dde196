// Definitions: requests for pair rows, hold rows and events' names; why they are refused, and the index of a row. The crates `row_pairs`,
// `row_holds` and `row_names` have the code.
#![tactic(auto)]

ghost use Rattle.std.specs.Prelude.{◌≡◌};
ghost use Rattle.row.specs.Read.{row_refusal, index_of};
ghost use Rattle.row.specs.declared.RowError.TheVariants as RowError;

use book::OpenError;

// Why a request for rows is refused: the book is not opened, or the index is past the last row.
#[derive(Clone, Copy)]
pub enum RowError {
    Open(OpenError),
    PastLast,
}

impl RowError {
    // The number of the answer.
    pub fn number(self) -> u32
        ensures { result ≡ row_refusal self }
    {
        match self {
            RowError::Open(e) => e.number(),
            RowError::PastLast => 15,
        }
    }
}

impl From<OpenError> for RowError {
    ghost from_gives = { λ e r. r ≡ RowError.Open e };

    fn from(e: OpenError) -> RowError {
        RowError::Open(e)
    }
}

// The place of row number i in a list: below 0 there is none.
pub fn index_of(i: i64) -> Result<usize, RowError>
    ensures { result ≡ index_of i }
{
    if i < 0 {
        Err(RowError::PastLast)
    } else {
        Ok(i as usize)
    }
}
