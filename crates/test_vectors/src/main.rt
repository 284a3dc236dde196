// Code only: vectors for the leaves. Each line of standard input asks something of one leaf (`test_vectors_numbers`, `test_vectors_texts`), and is written back
// with the answer behind ` = `. Lines that begin with `#` are written back as they are. docs/MAP.md lists the kinds of question.
#![tactic(auto)]

use std::io;
use test_console::input::read_full;
use test_console::show;
use text::{LF, find};

// Answers the question in s by its first letter.
fn answer(rt: &impl Print, s: &[u8]) -> io::Result<()> {
    let [tag, _, rest @ ..] = s else {
        return Ok(());
    };
    match *tag {
        b'B' => test_vectors_numbers::bytes(rt, rest),
        b'C' => test_vectors_texts::operate_name(rt, rest),
        b'D' => test_vectors_numbers::decimal(rt, rest),
        b'E' => test_vectors_numbers::seconds(rt, rest),
        b'F' => test_vectors_numbers::finite(rt, rest),
        b'G' => test_vectors_numbers::day(rt, rest),
        b'H' => test_vectors_numbers::hold_yield(rt, rest),
        b'I' => test_vectors_numbers::int(rt, rest),
        b'K' => test_vectors_numbers::stop(rt, rest),
        b'N' => test_vectors_numbers::parts(rt, rest),
        b'O' => test_vectors_texts::operate(rt, rest),
        b'P' => test_vectors_numbers::pair_yield(rt, rest),
        b'R' => test_vectors_numbers::round(rt, rest),
        b'S' => test_vectors_texts::signal(rt, rest),
        b'T' => test_vectors_numbers::time(rt, rest),
        b'U' => test_vectors_texts::utf8(rt, rest),
        b'V' => test_vectors_texts::value(rt, rest),
        b'W' => test_vectors_numbers::written(rt, rest),
        b'X' => test_vectors_texts::operate_bytes(rt, rest),
        b'Y' => test_vectors_texts::signal_bytes(rt, rest),
        b'Z' => test_vectors_numbers::stop_field(rt, rest),
        b'z' => test_vectors_numbers::stop_shown(rt, rest),
        _ => show::text(rt, b"?"),
    }
}

// Writes a line back, with its answer where it asks something.
fn line(rt: &impl Print, s: &[u8]) -> io::Result<()> {
    show::text(rt, s)?;
    if !s.is_empty() && s[0] != b'#' {
        show::text(rt, b" = ")?;
        answer(rt, s)?;
    }
    show::text(rt, b"\n")
}

// Answers each line of s.
fn lines(rt: &impl Print, s: &[u8]) -> io::Result<()> {
    let n = s.len();
    let mut at = 0;
    while at < n {
        let end = find(s, at, n, LF);
        line(rt, &s[at..end])?;
        at = end + 1;
    }
    Ok(())
}

// Reads at most 100,000 bytes.
fn main(rt: HostRuntime) -> io::Result<()> {
    let mut space = [0u8; 100000];
    let n = read_full(&mut rt.stdin(), &mut space)?;
    lines(&rt, &space[..n])
}
