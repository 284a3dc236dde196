// A table, a book or an image that is lent, by its letter: T, B, or I.
use crate::raw;
use std::io;
use test_console::ask;
use test_console::ask::field;

// The first byte of a field, or 0.
fn letter(s: &[u8]) -> u8 {
    s.first().copied().unwrap_or(0)
}

// `P|X|at|BYTES`: bytes put in their place.
fn put(s: &[u8], table: &mut [u8], book: &mut [u8], image: &mut [u8]) {
    let at = ask::place(field(s, 2));
    let hex = field(s, 3);
    match letter(field(s, 1)) {
        b'T' => raw::change(table, at, hex),
        b'B' => raw::change(book, at, hex),
        _ => raw::change(image, at, hex),
    }
}

// `H|X|from|to`: bytes shown.
fn dump(rt: &impl Print, s: &[u8], table: &[u8], book: &[u8], image: &[u8]) -> io::Result<()> {
    let from = ask::place(field(s, 2));
    let to = ask::place(field(s, 3));
    match letter(field(s, 1)) {
        b'T' => raw::dump(rt, table, from, to),
        b'B' => raw::dump(rt, book, from, to),
        _ => raw::dump(rt, image, from, to),
    }
}

// Runs a line of one of these letters; one of another does nothing.
pub fn touched(
    rt: &impl Print,
    tag: u8,
    s: &[u8],
    table: &mut [u8],
    book: &mut [u8],
    image: &mut [u8],
) -> io::Result<()> {
    match tag {
        b'H' => dump(rt, s, table, book, image),
        b'P' => {
            put(s, table, book, image);
            Ok(())
        }
        _ => Ok(()),
    }
}
