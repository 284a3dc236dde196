// Code only: what the program `test_books` asks of the checks of a book: each byte is changed in turn, and what a call then says is asked.
#![tactic(auto)]

use book_feed::{FeedError, feed_bar};
use book_store::save;
use std::io;
use test_console::ask::field;
use test_console::{ask, show};

// Whether the book can be saved.
fn can_save(table: &[u8], book: &[u8], image: &mut [u8]) -> bool {
    save(table, book, image).is_ok()
}

// Whether the book passes a feed's header check: a bar that is out of its range is then refused for that.
fn can_feed(table: &[u8], book: &mut [u8]) -> bool {
    matches!(
        feed_bar(table, book, -1, 0, 0, 1.0, b""),
        Err(FeedError::BadBar)
    )
}

// Changes a byte of the book in the bits of the mask.
fn change(book: &mut [u8], at: usize, mask: u8) {
    if at < book.len() {
        book[at] ^= mask;
    }
}

// Whether the book passes: with `full` the full check of a save, else the header check of a feed.
fn passes(full: bool, table: &[u8], book: &mut [u8], image: &mut [u8]) -> bool {
    if full {
        can_save(table, book, image)
    } else {
        can_feed(table, book)
    }
}

// `F|mask|from|to` and `G|mask|from|to`: the places where the book, with this byte changed, passes.
pub fn changed(
    rt: &impl Print,
    full: bool,
    s: &[u8],
    table: &[u8],
    book: &mut [u8],
    image: &mut [u8],
) -> io::Result<()> {
    let mask = (ask::number(field(s, 1)) % 256) as u8;
    let from = ask::place(field(s, 2));
    let to = ask::place(field(s, 3));
    let mut first = true;
    for at in from..to {
        change(book, at, mask);
        if passes(full, table, book, image) {
            show::place(rt, at, first)?;
            first = false;
        }
        change(book, at, mask);
    }
    Ok(())
}
