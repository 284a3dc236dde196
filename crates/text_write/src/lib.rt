// Code only: numbers written to lent bytes: decimal and hexadecimal.
#![tactic(auto)]

ghost use Rattle.std.specs.Prelude.{◌≡◌, ◌+◌, ◌<◌, ◌≤◌, length};
ghost use Rattle.text.specs.Number.{decimal_of, hex_digit, hex_of};
ghost use Rattle.text.specs.Read.{Put};

use text::put_part;

// Writes v in plain decimal to dst at `at`, where twenty bytes are left, and answers the place behind it.
pub fn put_decimal(dst: &mut [u8], at: usize, v: u64) -> usize
    requires { at + 20 ≤ length dst.old }
    ensures { Put dst.old dst.new at (decimal_of v) result }
{
    let mut digits = [b'0'; 20];
    let mut p: usize = 19;
    let mut w = v;
    while 10 <= w {
        digits[p] = b'0' + (w % 10) as u8;
        w /= 10;
        p -= 1;
    }
    digits[p] = b'0' + w as u8;
    put_part(dst, at, &digits, p, 20)
}

// A digit below 16 in lower case.
fn hex_digit(d: u64) -> u8
    requires { d < 16 }
    ensures { result ≡ hex_digit d }
{
    if d < 10 {
        b'0' + d as u8
    } else {
        b'a' + (d - 10) as u8
    }
}

// Writes v as 16 hexadecimal digits in lower case to dst at `at`, and answers the place behind them.
pub fn put_hex(dst: &mut [u8], at: usize, v: u64) -> usize
    requires { at + 16 ≤ length dst.old }
    ensures { Put dst.old dst.new at (hex_of 16 v) result }
{
    let mut w = v;
    for k in (0..16).rev() {
        dst[at + k] = hex_digit(w % 16);
        w /= 16;
    }
    at + 16
}
