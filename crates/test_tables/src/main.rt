// Code only: runs a script of sheets, tables and signals. It keeps a text that lines build and a table of 32,768 bytes, zeros at first.
// Each line of standard input is written back, with ` = ` and the answer where it asks something.
//
//   +TEXT          adds a line to the text               .TEXT         adds bytes to it
//   *N|TEXT        adds N lines, `#` being the line's number from 0
//   %N|BYTES       adds N times bytes (in hexadecimal, as all BYTES here)
//   C              compiles the text into the table: the number, and a fingerprint of the table's bytes
//   M              takes the text as a bar's signals: 9, their refusal, or 0 and the event that is chosen
//   P|at|BYTES     puts bytes into the table             H|from|to     the table's bytes
//   T              whether the bytes are a table: 0 or 9
//   F|mask|from|to changes each byte in turn: the places where the bytes still are a table
//   #              a comment
//
// `C` and `M` empty the text.
#![tactic(auto)]

use std::io;
use test_console::ask::field;
use test_console::input::read_full;
use test_console::{ask, show};
use test_console_text::{build, raw};
use text::{LF, find};

// Whether a line of that letter asks something.
fn asks(tag: u8) -> bool {
    matches!(tag, b'C' | b'F' | b'H' | b'M' | b'T')
}

// Whether a line of that letter empties the text.
fn empties(tag: u8) -> bool {
    matches!(tag, b'C' | b'M')
}

// Runs a line on the text and the table; one that adds to the text does nothing here.
fn inspect(rt: &impl Print, tag: u8, s: &[u8], text: &[u8], table: &mut [u8]) -> io::Result<()> {
    match tag {
        b'C' => test_tables_asked::compiled(rt, text, table),
        b'M' => test_tables_asked::matched(rt, text, table),
        b'F' => test_tables_asked::changed(rt, s, table),
        b'H' => raw::dump(rt, table, ask::place(field(s, 1)), ask::place(field(s, 2))),
        b'P' => {
            raw::change(table, ask::place(field(s, 1)), field(s, 2));
            Ok(())
        }
        b'T' => test_tables_asked::accepted(rt, table),
        _ => Ok(()),
    }
}

// Runs a line, and answers how many bytes of the text are taken then.
fn run(
    rt: &impl Print,
    s: &[u8],
    text: &mut [u8],
    used: usize,
    table: &mut [u8],
) -> io::Result<usize> {
    let [tag, rest @ ..] = s else {
        return Ok(used);
    };
    let tag = *tag;
    if asks(tag) {
        show::text(rt, b" = ")?;
    }
    inspect(rt, tag, s, build::taken(text, used), table)?;
    if empties(tag) {
        return Ok(0);
    }
    Ok(build::added(tag, rest, text, used))
}

// Runs a line and writes it back.
fn line(
    rt: &impl Print,
    s: &[u8],
    text: &mut [u8],
    used: usize,
    table: &mut [u8],
) -> io::Result<usize> {
    show::text(rt, s)?;
    let n = run(rt, s, text, used, table)?;
    show::text(rt, b"\n")?;
    Ok(n)
}

// Runs each line of s.
fn lines(rt: &impl Print, s: &[u8], text: &mut [u8], table: &mut [u8]) -> io::Result<()> {
    let n = s.len();
    let mut used = 0;
    let mut at = 0;
    while at < n {
        let end = find(s, at, n, LF);
        used = line(rt, &s[at..end], text, used, table)?;
        at = end + 1;
    }
    Ok(())
}

// Reads at most 65,536 bytes. A text has room for 20,000.
fn main(rt: HostRuntime) -> io::Result<()> {
    let mut space = [0u8; 65536];
    let n = read_full(&mut rt.stdin(), &mut space)?;
    let mut text = [0u8; 20000];
    let mut table = [0u8; 32768];
    lines(&rt, &space[..n], &mut text, &mut table)
}
