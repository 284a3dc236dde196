// Signals, their keys, and a bar's values.
#![tactic(auto)]

ghost use Rattle.std.specs.Prelude.{◌≡◌, ◌+◌, ◌-◌, ◌<◌, ◌≤◌, length};
ghost use Rattle.std.proofs.Math.Seq.{slice};
ghost use Rattle.text.specs.Text.{same};
ghost use Rattle.text.specs.Read.{Part};
ghost use Rattle.signal.specs.Signal.{wildcard, score as Signal·score};
ghost use Rattle.signal.specs.declared.SignalAloneError.TheVariants as SignalAloneError;
ghost use Rattle.signal.specs.Read.{PartEnd, ThreeFrom, signal_in, SignalOk, ReadAs, AloneAs, key_part, KeyPut, KeyAt, ValueAs};

use text::{UNDERSCORE, find, part_eq, put_byte, put_part};
use text_number::read_i32;
use utf8_text::AloneError;

// The highest score of a signal.
pub const SCORE_LIMIT: u64 = 1_000;

// The places of three underscores, one behind each of three parts.
#[derive(Clone, Copy)]
struct Three {
    first: usize,
    second: usize,
    third: usize,
}

// A signal that was read: the place behind each part but the score, where its underscore stands, and the score.
#[derive(Clone, Copy)]
pub struct SignalAt {
    pub k1: usize,
    pub k2: usize,
    pub k3: usize,
    pub v1: usize,
    pub v2: usize,
    pub v3: usize,
    pub score: u64,
}

// Why a text is no signal.
#[derive(Clone, Copy)]
pub enum SignalError {
    NotSeven,
    BadScore,
}

// Why a text that stands alone is no signal.
#[derive(Clone, Copy)]
pub enum SignalAloneError {
    Text(AloneError),
    Signal(SignalError),
}

impl From<AloneError> for SignalAloneError {
    ghost from_gives = { λ e r. r ≡ SignalAloneError.Text e };

    fn from(e: AloneError) -> SignalAloneError {
        SignalAloneError::Text(e)
    }
}

impl From<SignalError> for SignalAloneError {
    ghost from_gives = { λ e r. r ≡ SignalAloneError.Signal e };

    fn from(e: SignalError) -> SignalAloneError {
        SignalAloneError::Signal(e)
    }
}

// A value that was read: the place behind each of its three parts, and the score.
#[derive(Clone, Copy)]
pub struct ValueAt {
    pub v1: usize,
    pub v2: usize,
    pub v3: usize,
    pub score: i32,
}

// The end of a key that is being written, and whether it has a part already.
#[derive(Clone, Copy)]
pub struct KeyEnd {
    pub at: usize,
    pub some: bool,
}

// The underscore behind the part of s that starts at `from`, or none behind the last part.
fn part_end(s: &[u8], from: usize) -> Option<usize>
    requires { from ≤ length s.now }
    ensures { PartEnd s.now from result }
{
    let n = s.len();
    let end = find(s, from, n, UNDERSCORE);
    (end < n).then_some(end)
}

// The three parts of s from `from` on that have an underscore behind them.
fn three_parts(s: &[u8], from: usize) -> Option<Three>
    requires { from ≤ length s.now }
    ensures { ThreeFrom s.now from result }
{
    let first = part_end(s, from)?;
    let second = part_end(s, first + 1)?;
    let third = part_end(s, second + 1)?;
    Some(Three {
        first,
        second,
        third,
    })
}

// The score that a number is.
fn score(i: Option<i32>) -> Option<u64>
    ensures { result ≡ Signal·score i }
{
    let n = u64::try_from(i?).ok()?;
    (n <= SCORE_LIMIT).then_some(n)
}

// The signal that s is.
pub fn from_str(s: &[u8]) -> Result<SignalAt, SignalError>
    ensures { ReadAs s.now result }
{
    let k = three_parts(s, 0).ok_or(SignalError::NotSeven)?;
    let v = three_parts(s, k.third + 1).ok_or(SignalError::NotSeven)?;
    let last = v.third + 1;
    if part_end(s, last).is_some() {
        return Err(SignalError::NotSeven);
    }
    let score = score(read_i32(s, last, s.len())).ok_or(SignalError::BadScore)?;
    Ok(SignalAt {
        k1: k.first,
        k2: k.second,
        k3: k.third,
        v1: v.first,
        v2: v.second,
        v3: v.third,
        score,
    })
}

// The signal that s alone is, or the first reason to refuse it.
pub fn signal_alone(s: &[u8]) -> Result<SignalAt, SignalAloneError>
    ensures { AloneAs s.now result }
{
    utf8_text::check_alone(s)?;
    Ok(from_str(s)?)
}

// Whether s in from..to is the wildcard 任意.
pub fn is_wild(s: &[u8], from: usize, to: usize) -> bool
    requires { Part s.now from to }
    ensures { result ≡ same (slice from to s.now) wildcard }
{
    part_eq(s, from, to, b"\xe4\xbb\xbb\xe6\x84\x8f", 0, 6)
}

// Adds s in from..to to the key that ends at `end` of dst, unless it is the wildcard.
fn put_key_part(dst: &mut [u8], end: KeyEnd, s: &[u8], from: usize, to: usize) -> KeyEnd
    requires part { Part s.now from to }
    requires s_in_bounds { end.at + length (key_part end.some (slice from to s.now)) ≤ length dst.old }
    ensures { KeyPut dst.old dst.new end s.now from to result }
{
    if is_wild(s, from, to) {
        return end;
    }
    let start = if end.some {
        put_byte(dst, end.at, UNDERSCORE)
    } else {
        end.at
    };
    let at = put_part(dst, start, s, from, to);
    KeyEnd { at, some: true }
}

// Writes the key of a signal in s to dst at `at`, and answers the place behind it.
pub fn put_key(dst: &mut [u8], at: usize, s: &[u8], a: SignalAt) -> usize
    requires signal_ok { SignalOk s.now a }
    requires a_in_bounds { at + length (signal_in s.now a).key ≤ length dst.old }
    ensures { KeyAt dst.old dst.new at s.now a result }
{
    let none = KeyEnd { at, some: false };
    let one = put_key_part(dst, none, s, 0, a.k1);
    let two = put_key_part(dst, one, s, a.k1 + 1, a.k2);
    let three = put_key_part(dst, two, s, a.k2 + 1, a.k3);
    three.at
}

// The value that s is, or none that counts.
pub fn read_value(s: &[u8]) -> Option<ValueAt>
    ensures { ValueAs s.now result }
{
    let v = three_parts(s, 0)?;
    let last = v.third + 1;
    if part_end(s, last).is_some() {
        return None;
    }
    let score = read_i32(s, last, s.len())?;
    Some(ValueAt {
        v1: v.first,
        v2: v.second,
        v3: v.third,
        score,
    })
}
