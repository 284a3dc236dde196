// Code only: runs a script of sheets, bars, saves, restores and rows. It keeps a text that lines build, a table, a book, an image and a row
// buffer, zeros at first. Each line of standard input is written back, with ` = ` and the answer where it asks something.
//
//   +TEXT .TEXT *N|TEXT %N|BYTES   add to the text, as in the program `test_tables`
//   L|T|B|I|R      lends so many bytes of table, book, image and row buffer from now on
//   C              compiles the text into the table
//   N              makes the book fresh
//   B|id|instant|offset|price      feeds the bar with the text as its signals: position, changed, what decided it, the event
//   X|line         feeds the bar that a line of the exchange's comma file says, as `B` does
//   S              saves the book into the image         R             restores the book from it
//   V|i            pair row i                            W|i           hold row i
//   E|i            the name of event i
//   P|X|at|BYTES   puts bytes into the table, book or image (X is T, B or I)
//   H|X|from|to    their bytes
//   F|mask|from|to changes each byte of the book in turn: the places where it can still be saved
//   G|mask|from|to the same: the places where a feed still passes its header check
//   #              a comment
//
// A call's answer begins with its number and ends with a fingerprint of the bytes that it may change. `C`, `B` and `X` empty the text.
#![tactic(auto)]

use std::io;
use test_books_line::{Lent, line};
use test_console::input::read_full;
use test_console::show;
use text::{LF, find};

// Runs each line of s, and writes it back.
fn lines(
    rt: &impl Print,
    s: &[u8],
    text: &mut [u8],
    table: &mut [u8],
    book: &mut [u8],
    image: &mut [u8],
    row: &mut [u8],
) -> io::Result<()> {
    let n = s.len();
    let mut l = Lent {
        text: 0,
        table: 32768,
        book: 416,
        image: 416,
        row: 2048,
    };
    let mut at = 0;
    while at < n {
        let end = find(s, at, n, LF);
        show::text(rt, &s[at..end])?;
        l = line(rt, &s[at..end], l, text, table, book, image, row)?;
        show::text(rt, b"\n")?;
        at = end + 1;
    }
    Ok(())
}

// Reads at most 100,000 bytes. A text has room for 20,000.
fn main(rt: HostRuntime) -> io::Result<()> {
    let mut space = [0u8; 100000];
    let n = read_full(&mut rt.stdin(), &mut space)?;
    let mut text = [0u8; 20000];
    let mut table = [0u8; 33000];
    let mut book = [0u8; 20000];
    let mut image = [0u8; 20000];
    let mut row = [0u8; 4096];
    lines(
        &rt,
        &space[..n],
        &mut text,
        &mut table,
        &mut book,
        &mut image,
        &mut row,
    )
}
