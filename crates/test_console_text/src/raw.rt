// Bytes that are changed and shown, whatever they mean.
use std::io;
use test_console::{ask, show};

// The bytes that `hex` writes in hexadecimal take the place of those from `at` on.
pub fn change(b: &mut [u8], at: usize, hex: &[u8]) {
    if at < b.len() {
        ask::pairs(hex, &mut b[at..]);
    }
}

// The bytes in from..to in hexadecimal.
pub fn dump(rt: &impl Print, b: &[u8], from: usize, to: usize) -> io::Result<()> {
    if let Some(bytes) = b.get(from..to) {
        for x in bytes {
            print!(rt; "{x:02x}")?;
        }
    }
    Ok(())
}

// A number that tells most bytes from others.
fn fingerprint(b: &[u8]) -> u64 {
    let mut h: u64 = 0;
    for x in b {
        h = (h * 31 + u64::from(*x)) % 4294967296;
    }
    h
}

// The number of an answer, and the fingerprint of the bytes that the call may change.
pub fn ended(rt: &impl Print, n: u32, b: &[u8]) -> io::Result<()> {
    show::number(rt, n as u64)?;
    show::next(rt)?;
    show::number(rt, fingerprint(b))
}
