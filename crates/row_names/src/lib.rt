// The texts of an accepted table that rows show: the position's name and symbol, and the names of its events.
#![tactic(auto)]

ghost use Rattle.std.specs.Prelude.{◌≡◌, true, ◌<◌, ◌≤◌, length};
ghost use Rattle.sheet.specs.Sheet.{name_limit};
ghost use Rattle.table.specs.Layout.{counts_in, parts_in};
ghost use Rattle.table.specs.Table.{is_table, sheet_of};
ghost use Rattle.position.specs.Rows.{event_name};
ghost use Rattle.row_names.specs.Read.{NameAs};

use book::OpenError;
use row::{RowError, index_of};
use sheet::NAME_LIMIT;
use table::{TABLE_LENGTH, event_at, read_counts, read_places};
use table_check::is_table;
use text::put_part;

// The position's name.
pub fn name_text(t: &[u8]) -> &[u8]
    requires { is_table t.now ≡ true }
    ensures { (result.now ≡ (sheet_of (parts_in t.now)).name) × (length result.now ≤ name_limit) }
{
    let c = read_counts(t);
    let p = read_places(t);
    let from = p.texts as usize;
    let to = from + c.name as usize;
    &t[from..to]
}

// The position's symbol.
pub fn symbol_text(t: &[u8]) -> &[u8]
    requires { is_table t.now ≡ true }
    ensures { (result.now ≡ (sheet_of (parts_in t.now)).symbol) × (length result.now ≤ name_limit) }
{
    let c = read_counts(t);
    let p = read_places(t);
    let from = p.texts as usize + c.name as usize;
    let to = p.names as usize;
    &t[from..to]
}

// The name of event number i.
pub fn event_text(t: &[u8], i: usize) -> &[u8]
    requires t_value { is_table t.now ≡ true }
    requires i_bound { i < (counts_in t.now).events }
    ensures { (result.now ≡ event_name (sheet_of (parts_in t.now)) i) × (length result.now ≤ name_limit) }
{
    let p = read_places(t);
    let events = p.events as usize;
    let clauses = p.clauses as usize;
    let e = event_at(&t[events..clauses], i);
    let from = p.names as usize + e.at as usize;
    let to = from + e.len as usize;
    &t[from..to]
}

// Writes the name of event number i of a table to the start of the buffer.
pub fn event_name(table: &[u8], i: i64, buffer: &mut [u8]) -> Result<usize, RowError>
    ensures { NameAs table.now i buffer.old buffer.new result }
{
    if table.len() != TABLE_LENGTH || buffer.len() < NAME_LIMIT {
        return Err(RowError::Open(OpenError::WrongLength));
    }
    if !is_table(table) {
        return Err(RowError::Open(OpenError::NotTable));
    }
    let k = index_of(i)?;
    if read_counts(table).events as usize <= k {
        return Err(RowError::PastLast);
    }
    let name = event_text(table, k);
    Ok(put_part(buffer, 0, name, 0, name.len()))
}
