// Code only: what the program `test_books` asks of the calls that change a book: fresh, feed, save, restore. Each shows its number, its values and a
// fingerprint of the bytes that it may change.
#![tactic(auto)]

use book::OpenError;
use book_feed::{FeedError, feed_bar};
use book_feed_line::feed_line;
use book_store::{fresh, restore, save};
use position::{Description, Pos, Report};
use std::io;
use test_console::ask::field;
use test_console::show::next;
use test_console::{ask, show};
use test_console_text::raw::ended;

// What fresh, save and restore answer.
fn stored(rt: &impl Print, r: Result<(), OpenError>, bytes: &[u8]) -> io::Result<()> {
    let number = match r {
        Ok(()) => 0,
        Err(e) => e.number(),
    };
    ended(rt, number, bytes)
}

// `N`: makes the book fresh.
fn made(rt: &impl Print, book: &mut [u8]) -> io::Result<()> {
    let r = fresh(book);
    stored(rt, r, book)
}

// `S`: saves the book.
fn saved(rt: &impl Print, table: &[u8], book: &[u8], image: &mut [u8]) -> io::Result<()> {
    let r = save(table, book, image);
    stored(rt, r, image)
}

// `R`: restores the book.
fn restored(rt: &impl Print, table: &[u8], book: &mut [u8], image: &[u8]) -> io::Result<()> {
    let r = restore(table, book, image);
    stored(rt, r, book)
}

// -1, 0 or 1.
fn position(rt: &impl Print, p: Pos) -> io::Result<()> {
    match p {
        Pos::Short => show::text(rt, b"-1"),
        Pos::Flat => show::text(rt, b"0"),
        Pos::Long => show::text(rt, b"1"),
    }
}

// The event's index, or the stop or the timeout.
fn description(rt: &impl Print, d: Description) -> io::Result<()> {
    match d {
        Description::Event(i) => show::number(rt, i as u64),
        Description::Stop => show::text(rt, b"stop"),
        Description::Timeout => show::text(rt, b"timeout"),
    }
}

// What a feed says of an accepted bar.
fn report(rt: &impl Print, r: Report) -> io::Result<()> {
    position(rt, r.pos)?;
    next(rt)?;
    show::flag(rt, r.changed)?;
    next(rt)?;
    match r.decision {
        Some(d) => description(rt, d)?,
        None => show::text(rt, b"-")?,
    }
    next(rt)
}

// What a feed answers.
fn answered(rt: &impl Print, r: Result<Report, FeedError>, book: &[u8]) -> io::Result<()> {
    match r {
        Ok(said) => {
            report(rt, said)?;
            ended(rt, 0, book)
        }
        Err(e) => ended(rt, e.number(), book),
    }
}

// `B|id|instant|offset|price`: feeds a bar with its signals.
fn fed(rt: &impl Print, s: &[u8], signals: &[u8], table: &[u8], book: &mut [u8]) -> io::Result<()> {
    let id = ask::signed(field(s, 1));
    let instant = ask::signed(field(s, 2));
    let offset = ask::signed(field(s, 3));
    let r = feed_bar(
        table,
        book,
        id,
        instant,
        offset,
        ask::real(field(s, 4)),
        signals,
    );
    answered(rt, r, book)
}

// `X|line`: feeds the bar that the line says with its signals.
fn fed_line(
    rt: &impl Print,
    s: &[u8],
    signals: &[u8],
    table: &[u8],
    book: &mut [u8],
) -> io::Result<()> {
    match s.get(2..) {
        Some(line) => {
            let r = feed_line(table, book, line, signals);
            answered(rt, r, book)
        }
        None => Ok(()),
    }
}

// Runs a line of one of these letters; one of another does nothing.
pub fn called(
    rt: &impl Print,
    tag: u8,
    s: &[u8],
    signals: &[u8],
    table: &[u8],
    book: &mut [u8],
    image: &mut [u8],
) -> io::Result<()> {
    match tag {
        b'N' => made(rt, book),
        b'B' => fed(rt, s, signals, table, book),
        b'X' => fed_line(rt, s, signals, table, book),
        b'S' => saved(rt, table, book, image),
        b'R' => restored(rt, table, book, image),
        _ => Ok(()),
    }
}
