// Code only: questions about texts: a function for each kind takes the fields behind the letter, asks the leaf, and shows the answer.
#![tactic(auto)]

use position_book_answer_alone::{operate_answer, signal_answer};
use std::io;
use test_console::show::next;
use test_console::{ask, show};

// U|bytes: whether they are UTF-8, given as hexadecimal digits.
pub fn utf8(rt: &impl Print, s: &[u8]) -> io::Result<()> {
    let mut space = [0u8; 64];
    let n = ask::pairs(s, &mut space);
    show::flag(rt, utf8_text::valid(&space[..n]))
}

// O|text: an operate alone.
pub fn operate(rt: &impl Print, s: &[u8]) -> io::Result<()> {
    let a = operate_answer(s);
    show::number(rt, a.number as u64)?;
    next(rt)?;
    show::number(rt, a.code as u64)
}

// C|code: its Chinese name.
pub fn operate_name(rt: &impl Print, s: &[u8]) -> io::Result<()> {
    let mut space = [0u8; 16];
    let code = ask::number(s) % 4294967296;
    let a = position_book_answer_alone::operate_name(code as u32, &mut space);
    show::number(rt, a.number as u64)?;
    next(rt)?;
    show::part(rt, &space, 0, a.length)
}

// X|bytes: an operate alone, given as hexadecimal digits.
pub fn operate_bytes(rt: &impl Print, s: &[u8]) -> io::Result<()> {
    let mut space = [0u8; 64];
    let n = ask::pairs(s, &mut space);
    operate(rt, &space[..n])
}

// Shows n bytes of s at `at` behind a bar, and answers the place behind them.
fn piece(rt: &impl Print, s: &[u8], at: usize, n: usize) -> io::Result<usize> {
    next(rt)?;
    if s.len() < at || s.len() - at < n {
        return Ok(at);
    }
    show::part(rt, s, at, at + n)?;
    Ok(at + n)
}

// S|text: a signal alone: its number, key, values and score.
pub fn signal(rt: &impl Print, s: &[u8]) -> io::Result<()> {
    let mut space = [0u8; 65536];
    let a = signal_answer(s, &mut space);
    show::number(rt, a.number as u64)?;
    let p = piece(rt, &space, 0, a.key)?;
    let q = piece(rt, &space, p, a.v1)?;
    let r = piece(rt, &space, q, a.v2)?;
    piece(rt, &space, r, a.v3)?;
    next(rt)?;
    show::number(rt, a.score)
}

// Y|bytes: a signal alone, given as hexadecimal digits.
pub fn signal_bytes(rt: &impl Print, s: &[u8]) -> io::Result<()> {
    let mut space = [0u8; 64];
    let n = ask::pairs(s, &mut space);
    signal(rt, &space[..n])
}

// V|text: a bar's value: its three parts and its score.
pub fn value(rt: &impl Print, s: &[u8]) -> io::Result<()> {
    match signal::read_value(s) {
        Some(v) => {
            show::part(rt, s, 0, v.v1)?;
            next(rt)?;
            show::part(rt, s, v.v1 + 1, v.v2)?;
            next(rt)?;
            show::part(rt, s, v.v2 + 1, v.v3)?;
            next(rt)?;
            show::signed32(rt, v.score)
        }
        None => show::text(rt, b"-"),
    }
}
