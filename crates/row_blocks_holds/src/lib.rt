// Blocks of hold rows: one check, then one pass over the holds.
#![tactic(auto)]

ghost use Rattle.std.specs.Prelude.{◌≡◌, ◌+◌, ◌<◌, ◌≤◌, length, drop};
ghost use Rattle.le.specs.Field.{u32};
ghost use Rattle.text.specs.Read.{Put};
ghost use Rattle.book.specs.Layout.{yield_flag};
ghost use Rattle.row_holds.specs.Held.{Held};
ghost use Rattle.row_blocks.specs.Blocks.{hold_row_bytes, hold_row_length, block_from, hold_block, hold_block_do};
ghost use Rattle.row_blocks.specs.Read.{Filled, BlockAs};
ghost use Rattle.row_blocks_holds.specs.Row.{row_at, RowNumbers};

use book::{ENTRY_LENGTH, HEAD_LENGTH, OpenError};
use book_entry::{hold_at, put_yield};
use double::Yield;
use le::{get_u32, put_f64, put_i32, put_i64, put_u32};
use position::HoldRow;
use row::{RowError, index_of};
use row_blocks::Block;
use row_holds::row_of;
use row_open::open_checked;

// The length of a hold row.
pub const HOLD_ROW: usize = 32;

// Whether a yield is present: 0 or 1.
pub fn present(y: Yield) -> u32
    ensures { result ≡ yield_flag y }
{
    match y {
        Yield::Absent => 0,
        Yield::Bp(_) => 1,
    }
}

// Writes a hold row from `at` on.
fn put_row(out: &mut [u8], at: usize, o: HoldRow)
    requires hold_row_length_in_bounds { at + hold_row_length ≤ length out.old }
    requires row_numbers { RowNumbers o }
    ensures { Put out.old out.new at (hold_row_bytes o) (at + hold_row_length) }
{
    put_i64(out, at, o.local.micros());
    put_i32(out, at + 8, o.pos);
    put_u32(out, at + 12, present(o.n1b));
    put_f64(out, at + 16, o.price);
    put_yield(out, at + 24, o.n1b);
}

// Writes the row of hold number i from `at` on.
fn put_hold(b: &[u8], i: usize, out: &mut [u8], at: usize)
    requires held { Held b.now }
    requires i_bound { i < u32 b.now 0 }
    requires hold_row_length_in_bounds { at + hold_row_length ≤ length out.old }
    ensures { Put out.old out.new at (row_at b.now i) (at + hold_row_length) }
{
    let from = HEAD_LENGTH + ENTRY_LENGTH * i;
    let o = hold_at(&b[from..from + ENTRY_LENGTH]);
    put_row(out, at, row_of(o));
}

// Writes the rows of the holds from number k on that fit.
fn put_rows(b: &[u8], k: usize, out: &mut [u8]) -> Block
    requires held { Held b.now }
    requires k_bound { k ≤ u32 b.now 0 }
    ensures { Filled (drop k (hold_block b.now)) out.old out.new result }
{
    let left = get_u32(b, 0) as usize - k;
    let rows = left.min(out.len() / HOLD_ROW);
    for i in 0..rows {
        put_hold(b, k + i, out, HOLD_ROW * i);
    }
    Block {
        rows,
        length: HOLD_ROW * rows,
    }
}

// The block from row number i on, of a book that passed the full check.
fn rows_from(b: &[u8], i: i64, out: &mut [u8]) -> Result<Block, RowError>
    requires { Held b.now }
    ensures { BlockAs (block_from (hold_block b.now) i (length out.old)) out.old out.new result }
{
    let k = index_of(i)?;
    if get_u32(b, 0) as usize <= k {
        return Err(RowError::PastLast);
    }
    Ok(put_rows(b, k, out))
}

// Writes the hold rows of a book from number i on, one after another, to the start of the buffer: as many as fit.
pub fn hold_rows(table: &[u8], b: &[u8], i: i64, out: &mut [u8]) -> Result<Block, RowError>
    ensures { BlockAs (hold_block_do table.now b.now i out.old) out.old out.new result }
{
    if out.len() < HOLD_ROW {
        return Err(RowError::Open(OpenError::WrongLength));
    }
    open_checked(table, b)?;
    rows_from(b, i, out)
}
