// Code only: what the program `test_books` asks of rows, and how it shows them: pairs, holds and events' names.
#![tactic(auto)]

use bar::LocalTime;
use double::Side;
use position::{HoldRow, PairRow};
use row_holds::hold_row;
use row_names::event_name;
use row_pairs::pair_row;
use std::io;
use test_console::ask::field;
use test_console::show::next;
use test_console::{ask, show};
use test_console_text::raw::ended;

// L or S.
fn side(rt: &impl Print, x: Side) -> io::Result<()> {
    match x {
        Side::Long => show::text(rt, b"L"),
        Side::Short => show::text(rt, b"S"),
    }
}

// A local time.
fn local(rt: &impl Print, t: LocalTime) -> io::Result<()> {
    show::signed(rt, t.micros())?;
    next(rt)
}

// The values of a pair, and its texts.
fn shown(rt: &impl Print, p: PairRow, row: &[u8]) -> io::Result<()> {
    side(rt, p.side)?;
    next(rt)?;
    local(rt, p.opened)?;
    local(rt, p.closed)?;
    show::real(rt, p.from)?;
    next(rt)?;
    show::real(rt, p.to)?;
    next(rt)?;
    show::signed(rt, p.ids)?;
    next(rt)?;
    show::real(rt, p.days)?;
    next(rt)?;
    show::yields(rt, p.bp)?;
    next(rt)?;
    texts(rt, row, p.symbol, p.mark, p.sequence)
}

// Three texts, one behind another.
fn texts(rt: &impl Print, row: &[u8], m: usize, n: usize, q: usize) -> io::Result<()> {
    if row.len() < m || row.len() - m < n || row.len() - m - n < q {
        return Ok(());
    }
    show::part(rt, row, 0, m)?;
    next(rt)?;
    show::part(rt, row, m, m + n)?;
    next(rt)?;
    show::part(rt, row, m + n, m + n + q)?;
    next(rt)
}

// `V|i`: a pair row.
fn pair(rt: &impl Print, s: &[u8], table: &[u8], book: &[u8], row: &mut [u8]) -> io::Result<()> {
    match pair_row(table, book, ask::signed(field(s, 1)), row) {
        Ok(p) => {
            shown(rt, p, row)?;
            ended(rt, 0, row)?;
            next(rt)?;
            show::number(rt, p.lots as u64)
        }
        Err(e) => ended(rt, e.number(), row),
    }
}

// The values of a hold.
fn held(rt: &impl Print, o: HoldRow) -> io::Result<()> {
    local(rt, o.local)?;
    show::signed32(rt, o.pos)?;
    next(rt)?;
    show::real(rt, o.price)?;
    next(rt)?;
    show::yields(rt, o.n1b)?;
    next(rt)
}

// `W|i`: a hold row.
fn hold(rt: &impl Print, s: &[u8], table: &[u8], book: &[u8]) -> io::Result<()> {
    match hold_row(table, book, ask::signed(field(s, 1))) {
        Ok(o) => {
            held(rt, o)?;
            show::number(rt, 0)
        }
        Err(e) => show::number(rt, e.number() as u64),
    }
}

// `E|i`: an event's name.
fn name(rt: &impl Print, s: &[u8], table: &[u8], row: &mut [u8]) -> io::Result<()> {
    match event_name(table, ask::signed(field(s, 1)), row) {
        Ok(n) => {
            show::part(rt, row, 0, n)?;
            next(rt)?;
            ended(rt, 0, row)
        }
        Err(e) => ended(rt, e.number(), row),
    }
}

// Runs a line of one of these letters; one of another does nothing.
pub fn asked(
    rt: &impl Print,
    tag: u8,
    s: &[u8],
    table: &[u8],
    book: &[u8],
    row: &mut [u8],
) -> io::Result<()> {
    match tag {
        b'V' => pair(rt, s, table, book, row),
        b'W' => hold(rt, s, table, book),
        b'E' => name(rt, s, table, row),
        _ => Ok(()),
    }
}
