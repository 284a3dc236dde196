// What each request for the rows of a book asks first: the lengths of the table and the book, then the full check.
#![tactic(auto)]

ghost use Rattle.row_open.specs.Open.{OpenedAs};

use book::OpenError;
use book_check::check_book;
use book_header::size_of;

// How many bars the book b has room for, where it is a book of the table: the answers 8, 9 and 10.
pub fn open_checked(table: &[u8], b: &[u8]) -> Result<u32, OpenError>
    ensures { OpenedAs table.now b.now result }
{
    let c = size_of(table, b).ok_or(OpenError::WrongLength)?;
    check_book(table, b, c)?;
    Ok(c)
}
