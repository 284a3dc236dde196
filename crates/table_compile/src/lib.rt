// Compiling a position sheet into a table: the sheet is read, its keys and values are noted, and then, when nothing can be refused any
// more, the table is written.
#![tactic(auto)]

ghost use Rattle.std.specs.Prelude.{◌≡◌, length};
ghost use Rattle.sheet.specs.Places.{sheet_at};
ghost use Rattle.table.specs.Layout.{table_length};
ghost use Rattle.table.specs.Compile.{Means};
ghost use Rattle.table_compile.specs.declared.CompileError.TheVariants as CompileError;
ghost use Rattle.table_compile.specs.Outcome.{compile_refusal, CompiledAs};
ghost use Rattle.table_compile.specs.Steps.{SheetDone};

use sheet::{CLAUSE_LIMIT, CLAUSE_NUMBERS, EVENT_LIMIT, EVENT_NUMBERS, SheetAt, SheetError};
use sheet_read::read_sheet;
use signal::SignalError;
use table::TABLE_LENGTH;
use table_codes::note_keys;
use table_codes_values::note_values;
use table_wordbook::Wordbook;
use table_write::put_table;

// The most bytes of the keys' texts together, and of the values': as many as a sheet has.
const TEXTS_LIMIT: usize = 16_384;

// The most values, three for each clause.
const VALUE_LIMIT: usize = 3 * CLAUSE_LIMIT;

// Why a text is not compiled.
#[derive(Clone, Copy)]
pub enum CompileError {
    WrongLength,
    Sheet(SheetError),
}

impl CompileError {
    // The number of the answer.
    pub fn number(self) -> u32
        ensures { result ≡ compile_refusal self }
    {
        match self {
            CompileError::Sheet(SheetError::NotUtf8) => 1,
            CompileError::Sheet(SheetError::Malformed) => 2,
            CompileError::Sheet(SheetError::BadNumber) => 3,
            CompileError::Sheet(SheetError::UnknownOperate) => 4,
            CompileError::Sheet(SheetError::Signal(SignalError::NotSeven)) => 5,
            CompileError::Sheet(SheetError::Signal(SignalError::BadScore)) => 6,
            CompileError::Sheet(SheetError::PastLimit) => 7,
            CompileError::WrongLength => 8,
            CompileError::Sheet(SheetError::BadLots) => 18,
        }
    }
}

impl From<SheetError> for CompileError {
    ghost from_gives = { λ e r. r ≡ CompileError.Sheet e };

    fn from(e: SheetError) -> CompileError {
        CompileError::Sheet(e)
    }
}

// Writes the table of a sheet that was read: its keys and its values are noted first.
fn write(table: &mut [u8], s: &[u8], es: &[u16], cs: &[u16], a: SheetAt)
    requires table_len { length table.old ≡ table_length }
    requires sheet_done { SheetDone s.now es.now cs.now a }
    ensures { Means table.new (sheet_at s.now es.now cs.now a) }
{
    let mut keytexts = [0u8; TEXTS_LIMIT];
    let mut starts = [0u16; CLAUSE_LIMIT + 1];
    let mut orders = [0u16; CLAUSE_LIMIT];
    let mut ranks = [0u16; CLAUSE_LIMIT];
    let mut keys = Wordbook::new(&mut starts, &mut orders, &mut ranks);
    let mut numbers = [0u16; CLAUSE_LIMIT];
    note_keys(s, cs, a.clauses, &mut keytexts, &mut keys, &mut numbers);
    let mut valuetexts = [0u8; TEXTS_LIMIT];
    let mut starts = [0u16; VALUE_LIMIT + 1];
    let mut orders = [0u16; VALUE_LIMIT];
    let mut ranks = [0u16; VALUE_LIMIT];
    let mut values = Wordbook::new(&mut starts, &mut orders, &mut ranks);
    let mut codes = [0u16; VALUE_LIMIT];
    note_values(s, cs, a.clauses, &mut valuetexts, &mut values, &mut codes);
    let keys = keys.words(&keytexts);
    let values = values.words(&valuetexts);
    put_table(table, s, es, cs, a, &numbers, &codes, &keys, &values);
}

// Compiles the sheet s into the table. A refusal leaves every byte of it.
pub fn compile(s: &[u8], table: &mut [u8]) -> Result<(), CompileError>
    ensures { CompiledAs s.now table.old table.new result }
{
    if table.len() != TABLE_LENGTH {
        return Err(CompileError::WrongLength);
    }
    let mut es = [0u16; EVENT_NUMBERS * EVENT_LIMIT];
    let mut cs = [0u16; CLAUSE_NUMBERS * CLAUSE_LIMIT];
    let a = read_sheet(s, &mut es, &mut cs)?;
    write(table, s, &es, &cs, a);
    Ok(())
}
