// The run program's input: where the line `-` stands, and what each line behind it says.
#![tactic(auto)]

ghost use Rattle.std.specs.Prelude.{◌≡◌, ◌≤◌, length};
ghost use Rattle.std.specs.Float.{binary64};
ghost use Rattle.std.specs.Float.Ieee.{of_bits};
ghost use Rattle.std.proofs.Math.Seq.{slice};
ghost use Rattle.text.specs.Number.{signed_to, digits_to, plus};
ghost use Rattle.text.specs.Read.{Part};
ghost use Rattle.text.specs.Text.{pipe, split};
ghost use Rattle.run_input.specs.Lines.{input_refusal, CutAs, BarAs, LineAs};

use bar::BarNumbers;
use le::real_of;
use text::{LF, PIPE, count_parts, find, part_eq};
use text_number::{decimal, read_hex};

// What a line says: a bar, or one of its signals.
#[derive(Clone, Copy)]
pub enum InputLine {
    Bar(BarNumbers),
    Signal,
}

// Why the lines behind `-` are refused: one stands where it may not or lacks fields, or a field is no number.
#[derive(Clone, Copy)]
pub enum InputError {
    Malformed,
    BadNumber,
}

impl InputError {
    // The number of the answer.
    pub fn number(self) -> u32
        ensures { result ≡ input_refusal self }
    {
        match self {
            InputError::Malformed => 2,
            InputError::BadNumber => 3,
        }
    }
}

// Where the first line `-` of s starts.
pub fn find_dash(s: &[u8]) -> Option<usize>
    ensures { CutAs s.now result }
{
    let n = s.len();
    let mut at = 0;
    while at < n {
        let end = find(s, at, n, LF);
        if end == n {
            return None;
        }
        if part_eq(s, at, end, b"-", 0, 1) {
            return Some(at);
        }
        at = end + 1;
    }
    None
}

// The number that 1 to n digits of s in from..to write.
fn read_plain(s: &[u8], from: usize, to: usize, n: usize) -> Option<i64>
    requires part { Part s.now from to }
    requires n_bound { n ≤ 18 }
    ensures { result ≡ plus (digits_to n (slice from to s.now)) }
{
    Some(decimal(s, from, to, n)? as i64)
}

// The number that 1 to n digits of s in from..to write, perhaps behind `-`.
fn read_signed(s: &[u8], from: usize, to: usize, n: usize) -> Option<i64>
    requires part { Part s.now from to }
    requires n_bound { n ≤ 18 }
    ensures { result ≡ signed_to n (slice from to s.now) }
{
    if from == to {
        return None;
    }
    if s[from] != b'-' {
        return read_plain(s, from, to, n);
    }
    Some(0 - (decimal(s, from + 1, to, n)? as i64))
}

// The double of 64 bits.
fn double_of(bits: u64) -> f64
    ensures { result ≡ of_bits binary64 bits }
{
    match real_of(bits) {
        Some(x) => x,
        None => 0.0 / 0.0,
    }
}

// The bar whose four fields s has in from..to, behind `B|`, where each of them is a number.
pub fn read_bar(s: &[u8], from: usize, to: usize) -> Option<BarNumbers>
    requires part { Part s.now from to }
    requires s_len { length (split pipe (slice from to s.now)) ≡ 4 }
    ensures { BarAs (slice from to s.now) result }
{
    let a = find(s, from, to, PIPE);
    let id = read_plain(s, from, a, 10)?;
    let b = find(s, a + 1, to, PIPE);
    let instant = read_plain(s, a + 1, b, 16)?;
    let c = find(s, b + 1, to, PIPE);
    let offset = read_signed(s, b + 1, c, 10)?;
    let bits = read_hex(s, c + 1, to)?;
    Some(BarNumbers {
        id,
        instant,
        offset,
        price: double_of(bits),
    })
}

// What the line of s in from..to says, or why it is refused.
pub fn read_line(s: &[u8], from: usize, to: usize) -> Result<InputLine, InputError>
    requires { Part s.now from to }
    ensures { LineAs (slice from to s.now) result }
{
    let tag = find(s, from, to, PIPE);
    let fields = count_parts(s, from, to, PIPE);
    if part_eq(s, from, tag, b"B", 0, 1) {
        if fields != 5 {
            return Err(InputError::Malformed);
        }
        let bar = read_bar(s, tag + 1, to).ok_or(InputError::BadNumber)?;
        return Ok(InputLine::Bar(bar));
    }
    if part_eq(s, from, tag, b"S", 0, 1) && fields == 3 {
        return Ok(InputLine::Signal);
    }
    Err(InputError::Malformed)
}
