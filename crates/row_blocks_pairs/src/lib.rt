// Blocks of pair rows: one check, then one walk over the records. Each row is made in a buffer of its own, and copied where it fits.
#![tactic(auto)]

ghost use Rattle.std.specs.Prelude.{◌≡◌, true, map, ◌+◌, ◌<◌, ◌≤◌, length, drop};
ghost use Rattle.le.specs.Field.{u32};
ghost use Rattle.table.specs.Layout.{counts_in, parts_in};
ghost use Rattle.table.specs.Table.{is_table, sheet_of};
ghost use Rattle.position.specs.Rows.{pairs_of};
ghost use Rattle.book.specs.Layout.{records_of};
ghost use Rattle.row_pairs.specs.Found.{Traded, pair_from};
ghost use Rattle.row_blocks.specs.Blocks.{pair_row_bytes, block_from, pair_block, pair_block_do};
ghost use Rattle.row_blocks.specs.Read.{Filled, BlockAs};
ghost use Rattle.row_blocks_pairs.specs.Added.{AddedAs};

use book::OpenError;
use le::get_u32;
use row::{RowError, index_of};
use row_blocks::Block;
use row_blocks_pair_write::{PAIR_NUMBERS, put_row};
use row_open::open_checked;
use row_pairs::{ROW_BUFFER, find_pair, opens_at, pair_at};

// The length of a pair row at most.
pub const PAIR_ROW_LIMIT: usize = PAIR_NUMBERS + ROW_BUFFER;

// Writes the row of the pair that starts with record number j from `at` on, where it fits.
fn add_pair(t: &[u8], b: &[u8], c: u32, j: usize, out: &mut [u8], at: usize) -> Option<usize>
    requires t_value { is_table t.now ≡ true }
    requires traded { Traded (counts_in t.now).events c b.now }
    requires j_bound { j + 1 < u32 b.now 4 }
    requires at_in_bounds { at ≤ length out.old }
    ensures { AddedAs (pair_from (sheet_of (parts_in t.now)) c b.now j) out.old out.new at result }
{
    let mut buffer = [0u8; ROW_BUFFER];
    let p = pair_at(t, b, c, j, &mut buffer);
    let n = p.symbol + p.mark + p.sequence;
    if out.len() - at < PAIR_NUMBERS + n {
        return None;
    }
    Some(put_row(out, at, p, &buffer, n))
}

// Writes the rows of the pairs from record number `first` on that fit.
fn put_rows(t: &[u8], b: &[u8], c: u32, first: usize, out: &mut [u8]) -> Block
    requires t_value { is_table t.now ≡ true }
    requires traded { Traded (counts_in t.now).events c b.now }
    ensures { Filled (map pair_row_bytes (pairs_of (sheet_of (parts_in t.now)) (drop first (records_of c b.now)))) out.old out.new result }
{
    let n = get_u32(b, 4) as usize;
    let mut at: usize = 0;
    let mut rows: usize = 0;
    for j in first..n.saturating_sub(1) {
        if opens_at(b, c, j) {
            let Some(end) = add_pair(t, b, c, j, out, at) else {
                return Block { rows, length: at };
            };
            at = end;
            rows += 1;
        }
    }
    Block { rows, length: at }
}

// The block from row number i on, of a book that passed the full check.
fn rows_from(t: &[u8], b: &[u8], c: u32, i: i64, out: &mut [u8]) -> Result<Block, RowError>
    requires t_value { is_table t.now ≡ true }
    requires traded { Traded (counts_in t.now).events c b.now }
    ensures { BlockAs (block_from (pair_block (sheet_of (parts_in t.now)) c b.now) i (length out.old)) out.old out.new result }
{
    let k = index_of(i)?;
    let first = find_pair(b, c, 0, k).ok_or(RowError::PastLast)?;
    Ok(put_rows(t, b, c, first, out))
}

// Writes the pair rows of a book from number i on, one after another, to the start of the buffer: as many as fit.
pub fn pair_rows(table: &[u8], b: &[u8], i: i64, out: &mut [u8]) -> Result<Block, RowError>
    ensures { BlockAs (pair_block_do table.now b.now i out.old) out.old out.new result }
{
    if out.len() < PAIR_ROW_LIMIT {
        return Err(RowError::Open(OpenError::WrongLength));
    }
    let c = open_checked(table, b)?;
    rows_from(table, b, c, i, out)
}
