// The bytes of a pair row in a block: its numbers, and its texts behind them.
#![tactic(auto)]

ghost use Rattle.std.specs.Prelude.{◌≡◌, ◌++◌, ◌+◌, ◌≤◌, length};
ghost use Rattle.std.proofs.Math.Seq.{slice};
ghost use Rattle.text.specs.Read.{Put};
ghost use Rattle.row_blocks.specs.Blocks.{side_sign};
ghost use Rattle.row_blocks_pair_write.specs.Row.{trade_bytes, figure_bytes, RowNumbers};

use book_entry::put_yield;
use double::Side;
use le::{put_f64, put_i32, put_i64, put_u32, put_u64};
use position::PairRow;
use row_blocks_holds::present;
use text::put_part;

// The length of a pair row's numbers.
pub const PAIR_NUMBERS: usize = 96;

// 1 for L, -1 for S.
pub fn side_sign(s: Side) -> i32
    ensures { result ≡ side_sign s }
{
    match s {
        Side::Long => 1,
        Side::Short => -1,
    }
}

// Writes the trade from `at` on: the side, whether there is a yield, both local times, both prices.
fn put_trade(out: &mut [u8], at: usize, p: PairRow)
    requires at_in_bounds { at + 40 ≤ length out.old }
    requires row_numbers { RowNumbers p }
    ensures { Put out.old out.new at (trade_bytes p) (at + 40) }
{
    put_i32(out, at, side_sign(p.side));
    put_u32(out, at + 4, present(p.bp));
    put_i64(out, at + 8, p.opened.micros());
    put_i64(out, at + 16, p.closed.micros());
    put_f64(out, at + 24, p.from);
    put_f64(out, at + 32, p.to);
}

// Writes the figures from `at` on: the id difference, days, the yield, the lengths of the texts, and the lots.
fn put_figures(out: &mut [u8], at: usize, p: PairRow)
    requires at_in_bounds { at + 56 ≤ length out.old }
    requires row_numbers { RowNumbers p }
    ensures { Put out.old out.new at (figure_bytes p) (at + 56) }
{
    put_i64(out, at, p.ids);
    put_f64(out, at + 8, p.days);
    put_yield(out, at + 16, p.bp);
    put_u64(out, at + 24, p.symbol as u64);
    put_u64(out, at + 32, p.mark as u64);
    put_u64(out, at + 40, p.sequence as u64);
    put_u64(out, at + 48, p.lots as u64);
}

// Writes a row whose n bytes of texts are at the start of the buffer, and answers the place behind it.
pub fn put_row(out: &mut [u8], at: usize, p: PairRow, buffer: &[u8], n: usize) -> usize
    requires n_in_bounds { n ≤ length buffer.now }
    requires n_in_bounds_2 { at + 96 + n ≤ length out.old }
    requires row_numbers { RowNumbers p }
    ensures { Put out.old out.new at (trade_bytes p ++ figure_bytes p ++ slice 0 n buffer.now) result }
{
    put_trade(out, at, p);
    put_figures(out, at + 40, p);
    put_part(out, at + PAIR_NUMBERS, buffer, 0, n)
}
