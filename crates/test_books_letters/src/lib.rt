// Code only: runs one line of the program `test_books`, whose file says what each letter asks, on the bytes that are lent.
#![tactic(auto)]

use std::io;
use test_books_calls::called;
use test_books_checks::changed;
use test_books_rows::asked;
use test_console::show;
use test_console_text::build;
use test_console_text::lent::touched;

// Whether a line of that letter asks something.
fn asks(tag: u8) -> bool {
    matches!(
        tag,
        b'B' | b'C' | b'E' | b'F' | b'G' | b'H' | b'N' | b'R' | b'S' | b'V' | b'W' | b'X'
    )
}

// Runs a line, and shows ` = ` and the answer where it asks something; one that adds to the text does nothing here.
pub fn inspect(
    rt: &impl Print,
    tag: u8,
    s: &[u8],
    text: &[u8],
    table: &mut [u8],
    book: &mut [u8],
    image: &mut [u8],
    row: &mut [u8],
) -> io::Result<()> {
    if asks(tag) {
        show::text(rt, b" = ")?;
    }
    match tag {
        b'C' => test_tables_asked::compiled(rt, text, table),
        b'E' | b'V' | b'W' => asked(rt, tag, s, table, book, row),
        b'F' | b'G' => changed(rt, tag == b'F', s, table, book, image),
        b'H' | b'P' => touched(rt, tag, s, table, book, image),
        _ => called(rt, tag, s, text, table, book, image),
    }
}

// How many bytes of the text are taken after the line, whose letter is left out: `B`, `C` and `X` empty it.
pub fn grown(tag: u8, s: &[u8], text: &mut [u8], used: usize) -> usize {
    match tag {
        b'B' | b'C' | b'X' => 0,
        _ => build::added(tag, s, text, used),
    }
}
