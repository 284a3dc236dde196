// Building a text in a buffer of which `used` bytes are taken. Each function adds what has room, and answers how many are taken then.
use test_console::ask;
use test_console::ask::field;
use text::{LF, PIPE};

// One byte.
fn byte(b: u8, out: &mut [u8], used: usize) -> usize {
    if used < out.len() {
        out[used] = b;
        used + 1
    } else {
        used
    }
}

// `.TEXT`: the bytes of s.
fn bytes(s: &[u8], out: &mut [u8], used: usize) -> usize {
    let mut n = used;
    for b in s {
        n = byte(*b, out, n);
    }
    n
}

// `+TEXT`: a line.
fn line(s: &[u8], out: &mut [u8], used: usize) -> usize {
    let n = bytes(s, out, used);
    byte(LF, out, n)
}

// A byte of a numbered line: `#` stands for its number.
fn mark(b: u8, number: u64, out: &mut [u8], used: usize) -> usize {
    if b == b'#' {
        let mut digits = [0u8; 20];
        let n = text_write::put_decimal(&mut digits, 0, number);
        return bytes(taken(&digits, n), out, used);
    }
    byte(b, out, used)
}

// A numbered line.
fn numbered(s: &[u8], number: u64, out: &mut [u8], used: usize) -> usize {
    let mut n = used;
    for b in s {
        n = mark(*b, number, out, n);
    }
    byte(LF, out, n)
}

// count lines, numbered from 0.
fn many(s: &[u8], count: u64, out: &mut [u8], used: usize) -> usize {
    let mut n = used;
    for i in 0..count {
        n = numbered(s, i, out, n);
    }
    n
}

// `*N|TEXT`: N numbered lines.
fn lines(s: &[u8], out: &mut [u8], used: usize) -> usize {
    match s.iter().position(|b| *b == PIPE) {
        Some(bar) => many(&s[bar + 1..], ask::number(&s[..bar]), out, used),
        None => used,
    }
}

// The bytes of s, count times.
fn copied(s: &[u8], count: u64, out: &mut [u8], used: usize) -> usize {
    let mut n = used;
    for _ in 0..count {
        n = bytes(s, out, n);
    }
    n
}

// `%N|BYTES`: N times bytes in hexadecimal, at most 256.
fn copies(s: &[u8], out: &mut [u8], used: usize) -> usize {
    let mut space = [0u8; 256];
    let n = ask::pairs(field(s, 1), &mut space);
    copied(&space[..n], ask::number(field(s, 0)), out, used)
}

// The bytes that are taken.
pub fn taken(text: &[u8], used: usize) -> &[u8] {
    text.get(..used).unwrap_or(text)
}

// What a line of that letter adds: nothing where it is another letter.
pub fn added(tag: u8, s: &[u8], out: &mut [u8], used: usize) -> usize {
    match tag {
        b'+' => line(s, out, used),
        b'.' => bytes(s, out, used),
        b'*' => lines(s, out, used),
        b'%' => copies(s, out, used),
        _ => used,
    }
}
