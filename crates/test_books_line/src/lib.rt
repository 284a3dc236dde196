// Code only: runs one line of the program `test_books` on what is lent of its buffers.
#![tactic(auto)]

use std::io;
use test_books_letters::{grown, inspect};
use test_console::ask;
use test_console::ask::field;
use test_console_text::build;

// How many bytes of the text are taken, and how many of each buffer are lent.
#[derive(Clone, Copy)]
pub struct Lent {
    pub text: usize,
    pub table: usize,
    pub book: usize,
    pub image: usize,
    pub row: usize,
}

// `L|T|B|I|R`: how many bytes are lent.
fn lend(s: &[u8], l: Lent) -> Lent {
    Lent {
        table: ask::place(field(s, 1)),
        book: ask::place(field(s, 2)),
        image: ask::place(field(s, 3)),
        row: ask::place(field(s, 4)),
        ..l
    }
}

// The bytes of b that are lent, where so many are asked.
fn cut(b: &mut [u8], asked: usize) -> &mut [u8] {
    let n = b.len().min(asked);
    &mut b[..n]
}

// Runs a line.
pub fn line(
    rt: &impl Print,
    s: &[u8],
    l: Lent,
    text: &mut [u8],
    table: &mut [u8],
    book: &mut [u8],
    image: &mut [u8],
    row: &mut [u8],
) -> io::Result<Lent> {
    let [tag, rest @ ..] = s else {
        return Ok(l);
    };
    let tag = *tag;
    if tag == b'L' {
        return Ok(lend(s, l));
    }
    let used = l.text;
    inspect(
        rt,
        tag,
        s,
        build::taken(text, used),
        cut(table, l.table),
        cut(book, l.book),
        cut(image, l.image),
        cut(row, l.row),
    )?;
    Ok(Lent {
        text: grown(tag, rest, text, used),
        ..l
    })
}
