// Hold rows.
#![tactic(auto)]

ghost use Rattle.std.specs.Prelude.{◌≡◌, true};
ghost use Rattle.text.specs.Answer.{given};
ghost use Rattle.bar.specs.Bar.{time_ok};
ghost use Rattle.position.specs.Rows.{hold_row, hold_rows};
ghost use Rattle.book.specs.Layout.{holds_of};
ghost use Rattle.row.specs.Read.{row_read_of};
ghost use Rattle.row.specs.Calls.{row_at, hold_do};
ghost use Rattle.row_holds.specs.Held.{Held};

use book::{ENTRY_LENGTH, HEAD_LENGTH};
use book_entry::hold_at;
use book_field::{local_of, pos_sign};
use le::get_u32;
use position::{Hold, HoldRow};
use row::{RowError, index_of};
use row_open::open_checked;

// The row of a hold.
pub fn row_of(o: Hold) -> HoldRow
    requires { time_ok o.time ≡ true }
    ensures { result ≡ hold_row o }
{
    HoldRow {
        local: local_of(o.time),
        pos: pos_sign(o.pos),
        price: o.price,
        n1b: o.n1b,
    }
}

// Row number i of a book that passed the full check.
fn row_at(b: &[u8], i: i64) -> Result<HoldRow, RowError>
    requires { Held b.now }
    ensures { row_read_of result ≡ given 15 (row_at (hold_rows (holds_of b.now)) i) }
{
    let k = index_of(i)?;
    if get_u32(b, 0) as usize <= k {
        return Err(RowError::PastLast);
    }
    let at = HEAD_LENGTH + ENTRY_LENGTH * k;
    let o = hold_at(&b[at..at + ENTRY_LENGTH]);
    Ok(row_of(o))
}

// Hold row number i of a book: its local time, -1, 0 or 1, its price and its yield.
pub fn hold_row(table: &[u8], b: &[u8], i: i64) -> Result<HoldRow, RowError>
    ensures { row_read_of result ≡ hold_do table.now b.now i }
{
    open_checked(table, b)?;
    row_at(b, i)
}
