// Writing answers to standard output. A write that fails is the error that each function returns.
use double::Yield;
use std::io;

// Bytes as they are.
pub fn text(rt: &impl Print, s: &[u8]) -> io::Result<()> {
    rt.write_all(s)
}

// The bytes of s in from..to, or nothing where that is no part of s.
pub fn part(rt: &impl Print, s: &[u8], from: usize, to: usize) -> io::Result<()> {
    match s.get(from..to) {
        Some(bytes) => text(rt, bytes),
        None => Ok(()),
    }
}

// What stands between two values.
pub fn next(rt: &impl Print) -> io::Result<()> {
    text(rt, b"|")
}

// In plain decimal.
pub fn number(rt: &impl Print, n: u64) -> io::Result<()> {
    rt.print(n)
}

// A place, behind a space unless it is the first one.
pub fn place(rt: &impl Print, at: usize, first: bool) -> io::Result<()> {
    if !first {
        text(rt, b" ")?;
    }
    rt.print(at)
}

// In plain decimal, behind a minus where it is negative.
pub fn signed(rt: &impl Print, z: i64) -> io::Result<()> {
    rt.print(z)
}

// The same of an i32.
pub fn signed32(rt: &impl Print, z: i32) -> io::Result<()> {
    rt.print(z)
}

// An i32 that was read, or `none`.
pub fn int(rt: &impl Print, i: Option<i32>) -> io::Result<()> {
    match i {
        Some(z) => signed32(rt, z),
        None => text(rt, b"none"),
    }
}

// 1 or 0.
pub fn flag(rt: &impl Print, b: bool) -> io::Result<()> {
    if b { text(rt, b"1") } else { text(rt, b"0") }
}

// A number that was read, or `-`.
pub fn maybe(rt: &impl Print, n: Option<u64>) -> io::Result<()> {
    match n {
        Some(n) => number(rt, n),
        None => text(rt, b"-"),
    }
}

// The bits of a double, or `nan`, whose bits are not one number.
pub fn real(rt: &impl Print, x: f64) -> io::Result<()> {
    if x.is_nan() {
        return text(rt, b"nan");
    }
    let bits = x.to_bits();
    print!(rt; "{bits:016x}")
}

// The same of what eight bytes hold.
pub fn stored(rt: &impl Print, r: Option<f64>) -> io::Result<()> {
    match r {
        Some(x) => real(rt, x),
        None => text(rt, b"nan"),
    }
}

// The bits of a yield, or `-` where it is absent.
pub fn yields(rt: &impl Print, y: Yield) -> io::Result<()> {
    match y {
        Yield::Bp(x) => real(rt, x),
        Yield::Absent => text(rt, b"-"),
    }
}
