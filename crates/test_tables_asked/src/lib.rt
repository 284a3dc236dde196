// Code only: what is asked of a table by its meaning: whether its bytes are one, compiling a sheet into it, and which event a bar's signals choose.
#![tactic(auto)]

ghost use Rattle.std.specs.Prelude.{◌≡◌, true};
ghost use Rattle.table.specs.Table.{is_table};

use event_signals::{SignalsError, read_signals};
use std::io;
use table_check::is_table;
use table_compile::compile;
use table_match::first_match;
use test_console::ask::field;
use test_console::{ask, show};
use test_console_text::raw::ended;

// `T`: 0 where the bytes are a table, otherwise 9.
pub fn accepted(rt: &impl Print, table: &[u8]) -> io::Result<()> {
    show::number(rt, if is_table(table) { 0 } else { 9 })
}

// Whether the bytes are a table where the one at `at` is changed. They are left as they were.
fn stands(table: &mut [u8], at: usize, mask: u8) -> bool {
    if table.len() <= at {
        return false;
    }
    table[at] ^= mask;
    let r = is_table(table);
    table[at] ^= mask;
    r
}

// `F|mask|from|to`: each byte in turn is changed in the bits of the mask; the places where the bytes then still are a table.
pub fn changed(rt: &impl Print, s: &[u8], table: &mut [u8]) -> io::Result<()> {
    let mask = (ask::number(field(s, 1)) % 256) as u8;
    let from = ask::place(field(s, 2));
    let to = ask::place(field(s, 3));
    let mut first = true;
    for at in from..to {
        if stands(table, at, mask) {
            show::place(rt, at, first)?;
            first = false;
        }
    }
    Ok(())
}

// `C`: compiles the sheet s; the number, and the fingerprint of the table's bytes.
pub fn compiled(rt: &impl Print, s: &[u8], table: &mut [u8]) -> io::Result<()> {
    let number = match compile(s, table) {
        Ok(()) => 0,
        Err(e) => e.number(),
    };
    ended(rt, number, table)
}

// The event that is chosen, or `-`.
fn chosen(rt: &impl Print, m: Option<usize>) -> io::Result<()> {
    show::text(rt, b"0|")?;
    show::maybe(rt, m.map(|i| i as u64))
}

// The number of the signals' refusal, or the event that they choose.
fn signals(rt: &impl Print, s: &[u8], table: &[u8]) -> io::Result<()>
    requires { is_table table.now ≡ true }
{
    let mut starts = [0usize; 257];
    let mut mids = [0usize; 256];
    let mut prints = [0u16; 256];
    match read_signals(s, &mut starts, &mut mids, &mut prints) {
        Ok(n) => chosen(rt, first_match(table, s, &starts, &mids, &prints, n)),
        Err(SignalsError::PastLimit) => show::number(rt, 7),
        Err(SignalsError::NotUtf8) => show::number(rt, 1),
        Err(SignalsError::Malformed) => show::number(rt, 2),
        Err(SignalsError::Twice) => show::number(rt, 12),
    }
}

// `M`: 9 where the bytes are no table, otherwise what the text says as a bar's signals.
pub fn matched(rt: &impl Print, s: &[u8], table: &[u8]) -> io::Result<()> {
    if is_table(table) {
        signals(rt, s, table)
    } else {
        show::number(rt, 9)
    }
}
