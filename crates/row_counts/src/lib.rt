// Code only: how many hold rows and pair rows a book has.
#![tactic(auto)]

ghost use Rattle.book.specs.Opened.{opened_of};
ghost use Rattle.std.specs.Prelude.{◌≡◌, ◌+◌, ◌≤◌, length};
ghost use Rattle.le.specs.Field.{u32};
ghost use Rattle.sheet.specs.Sheet.{Sheet};
ghost use Rattle.position.specs.Rows.{pairs_of};
ghost use Rattle.book.specs.Layout.{record_place, records_of};
ghost use Rattle.row_blocks.specs.Blocks.{counts_do};

use book::OpenError;
use le::get_u32;
use row_blocks::RowCounts;
use row_open::open_checked;
use row_pairs::opens_at;

// How many pairs the records of a book of c bars make, whatever the sheet.
fn count_pairs(b: &[u8], c: u32) -> usize
    requires { record_place c (u32 b.now 4) ≤ length b.now }
    ensures { (s : Sheet) → result ≡ length (pairs_of s (records_of c b.now)) }
{
    let n = get_u32(b, 4) as usize;
    let mut pairs: usize = 0;
    for j in 0..n.saturating_sub(1) {
        if opens_at(b, c, j) {
            pairs += 1;
        }
    }
    pairs
}

// The counts of a book's rows.
pub fn row_counts(table: &[u8], b: &[u8]) -> Result<RowCounts, OpenError>
    ensures { opened_of result ≡ counts_do table.now b.now }
{
    let c = open_checked(table, b)?;
    Ok(RowCounts {
        holds: get_u32(b, 0) as usize,
        pairs: count_pairs(b, c),
    })
}
