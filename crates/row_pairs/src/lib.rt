// Pair rows.
#![tactic(auto)]

ghost use Rattle.std.specs.Prelude.{◌≡◌, true, cond, ◌+◌, ◌<◌, ◌≤◌, eqb, length};
ghost use Rattle.le.specs.Field.{u32};
ghost use Rattle.text.specs.Answer.{given};
ghost use Rattle.double.specs.Double.{days_of};
ghost use Rattle.double.specs.declared.Side.TheVariants as Side;
ghost use Rattle.operate.specs.Operate.{LO};
ghost use Rattle.bar.specs.Time.{seconds_between};
ghost use Rattle.bar.specs.Bar.{time_ok};
ghost use Rattle.table.specs.Layout.{counts_in, parts_in};
ghost use Rattle.table.specs.Table.{is_table, sheet_of};
ghost use Rattle.position.specs.Rows.{opens, pair_of, pairs_of};
ghost use Rattle.book.specs.Layout.{record_place, records_of};
ghost use Rattle.row.specs.Calls.{row_buffer, row_at};
ghost use Rattle.row_pairs.specs.Read.{PairAs};
ghost use Rattle.row_pairs.specs.Found.{Traded, record_at, pair_from, FoundAs, Shown};
ghost use Rattle.row_pairs.specs.Row.{row_of, PairPut, Answered};

use bar::Time;
use book::{ENTRY_LENGTH, HEAD_LENGTH, OpenError};
use book_entry::record_at;
use book_field::local_of;
use double::{Side, days, pair_yield};
use le::get_u32;
use operate::{LO, is_opening};
use position::{PairRow, Record};
use row::{RowError, index_of};
use row_names::{name_text, symbol_text};
use row_open::open_checked;
use row_sequence::put_sequence;
use text::put_part;

// The least length of a row buffer.
pub const ROW_BUFFER: usize = 2048;

// Where in its slot a record has its operate.
const OPERATE: usize = 24;

// The side that an operate opens.
fn side_of(operate: u8) -> Side
    ensures { result ≡ cond (eqb operate LO) Side.Long Side.Short }
{
    if operate == LO {
        Side::Long
    } else {
        Side::Short
    }
}

// Whether record number j of a book of c bars opens. Only its operate is read.
pub fn opens_at(b: &[u8], c: u32, j: usize) -> bool
    requires { record_place c j + 32 ≤ length b.now }
    ensures { result ≡ opens (record_at c b.now j) }
{
    is_opening(b[HEAD_LENGTH + ENTRY_LENGTH * (c as usize) + ENTRY_LENGTH * j + OPERATE])
}

// Where pair number i of the records from number `from` on starts, of a book of c bars: a record that opens, with one behind it.
pub fn find_pair(b: &[u8], c: u32, from: usize, i: usize) -> Option<usize>
    requires b_in_bounds { record_place c (u32 b.now 4) ≤ length b.now }
    requires from_bound { from ≤ u32 b.now 4 }
    ensures { FoundAs c b.now from i result }
{
    let n = get_u32(b, 4) as usize;
    let mut left = i;
    for j in from..n.saturating_sub(1) {
        if opens_at(b, c, j) {
            if left == 0 {
                return Some(j);
            }
            left -= 1;
        }
    }
    None
}

// The days from one time to a later one.
fn days_between(a: Time, z: Time) -> f64
    requires fact_1 { time_ok a ≡ true }
    requires fact_2 { time_ok z ≡ true }
    ensures { result ≡ days_of (seconds_between a.instant.0 z.instant.0) }
{
    days(a.instant.seconds_to(z.instant))
}

// The row of two records, with the lengths of its texts.
fn row_of(a: Record, z: Record, symbol: usize, mark: usize, sequence: usize) -> PairRow
    requires fact_1 { time_ok a.bar.time ≡ true }
    requires fact_2 { time_ok z.bar.time ≡ true }
    ensures { result ≡ row_of a z symbol mark sequence }
{
    let side = side_of(a.operate);
    PairRow {
        side,
        opened: local_of(a.bar.time),
        closed: local_of(z.bar.time),
        from: a.bar.price,
        to: z.bar.price,
        ids: z.bar.id as i64 - a.bar.id as i64,
        days: days_between(a.bar.time, z.bar.time),
        bp: pair_yield(side, a.bar.price, z.bar.price),
        symbol,
        mark,
        sequence,
        lots: a.lots,
    }
}

// Writes symbol, mark and sequence of the pair of two records to the start of the buffer, and answers its row.
fn put_pair(buffer: &mut [u8], t: &[u8], a: Record, z: Record) -> PairRow
    requires t_value { is_table t.now ≡ true }
    requires shown { Shown (counts_in t.now).events a }
    requires shown_2 { Shown (counts_in t.now).events z }
    requires row_buffer_in_bounds { row_buffer ≤ length buffer.old }
    ensures { PairPut (pair_of (sheet_of (parts_in t.now)) a z) buffer.old buffer.new result }
{
    let symbol = symbol_text(t);
    let mark = name_text(t);
    let n = put_part(buffer, 0, symbol, 0, symbol.len());
    let m = put_part(buffer, n, mark, 0, mark.len());
    let end = put_sequence(buffer, m, t, a, z);
    row_of(a, z, n, m - n, end - m)
}

// The row of the pair that starts with record number j of a book that passed the full check; its texts go to the start of the buffer.
pub fn pair_at(t: &[u8], b: &[u8], c: u32, j: usize, buffer: &mut [u8]) -> PairRow
    requires t_value { is_table t.now ≡ true }
    requires traded { Traded (counts_in t.now).events c b.now }
    requires j_bound { j + 1 < u32 b.now 4 }
    requires row_buffer_in_bounds { row_buffer ≤ length buffer.old }
    ensures { PairPut (pair_from (sheet_of (parts_in t.now)) c b.now j) buffer.old buffer.new result }
{
    let at = HEAD_LENGTH + ENTRY_LENGTH * (c as usize) + ENTRY_LENGTH * j;
    let next = at + ENTRY_LENGTH;
    let a = record_at(&b[at..next]);
    let z = record_at(&b[next..next + ENTRY_LENGTH]);
    put_pair(buffer, t, a, z)
}

// Pair row number i of a book that passed the full check.
fn row_at(t: &[u8], b: &[u8], c: u32, i: i64, buffer: &mut [u8]) -> Result<PairRow, RowError>
    requires t_value { is_table t.now ≡ true }
    requires traded { Traded (counts_in t.now).events c b.now }
    requires row_buffer_in_bounds { row_buffer ≤ length buffer.old }
    ensures { Answered (given 15 (row_at (pairs_of (sheet_of (parts_in t.now)) (records_of c b.now)) i)) buffer.old buffer.new result }
{
    let k = index_of(i)?;
    let j = find_pair(b, c, 0, k).ok_or(RowError::PastLast)?;
    Ok(pair_at(t, b, c, j, buffer))
}

// Pair row number i of a book; its symbol, mark and sequence go to the start of the buffer.
pub fn pair_row(table: &[u8], b: &[u8], i: i64, buffer: &mut [u8]) -> Result<PairRow, RowError>
    ensures { PairAs table.now b.now i buffer.old buffer.new result }
{
    if buffer.len() < ROW_BUFFER {
        return Err(RowError::Open(OpenError::WrongLength));
    }
    let c = open_checked(table, b)?;
    row_at(table, b, c, i, buffer)
}
