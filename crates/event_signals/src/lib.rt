// Reading the text of a bar's signals.
#![tactic(auto)]

ghost use Rattle.std.specs.Prelude.{◌<◌, length};
ghost use Rattle.event_signals.specs.Read.{Room, SignalsAs};
ghost use Rattle.event_signals.specs.Steps.{Reading, AddedAs};

use event_find::{find_line, fingerprint};
use event_line::{LineEnds, read_line};
use utf8_text::{TEXT_LIMIT, valid};

// The most lines of a bar's signals.
pub const LINE_LIMIT: usize = 256;

// Why a text is refused as a bar's signals.
#[derive(Clone, Copy)]
pub enum SignalsError {
    PastLimit,
    NotUtf8,
    Malformed,
    Twice,
}

// Reads one line more behind n lines, from `from` on, and answers the place behind it.
fn add_line(
    s: &[u8],
    starts: &mut [usize],
    mids: &mut [usize],
    prints: &mut [u16],
    n: usize,
    from: usize,
) -> Result<usize, SignalsError>
    requires reading { Reading s.now starts.old mids.old prints.old n from }
    requires from_in_bounds { from < length s.now }
    ensures { AddedAs s.now starts.new mids.new prints.new n from result }
{
    let LineEnds { mid, end } = read_line(s, from).ok_or(SignalsError::Malformed)?;
    let h = fingerprint(s, from, mid);
    if find_line(&s[from..mid], h, s, starts, mids, prints, n).is_some() {
        return Err(SignalsError::Twice);
    }
    if n == LINE_LIMIT {
        return Err(SignalsError::PastLimit);
    }
    mids[n] = mid;
    prints[n] = h;
    starts[n + 1] = end + 1;
    Ok(end + 1)
}

// Reads the lines of a text, one after another, and answers how many.
fn read_lines(
    s: &[u8],
    starts: &mut [usize],
    mids: &mut [usize],
    prints: &mut [u16],
) -> Result<usize, SignalsError>
    requires { Reading s.now starts.old mids.old prints.old 0 0 }
    ensures { SignalsAs s.now starts.new mids.new prints.new result }
{
    let mut n: usize = 0;
    let mut at: usize = 0;
    // A while loop: each turn goes on where its line ended.
    while at < s.len() {
        at = add_line(s, starts, mids, prints, n, at)?;
        n += 1;
    }
    Ok(n)
}

// How many lines s has as a bar's signals; starts, mids and prints then have the lines' places and fingerprints.
pub fn read_signals(
    s: &[u8],
    starts: &mut [usize],
    mids: &mut [usize],
    prints: &mut [u16],
) -> Result<usize, SignalsError>
    requires { Room starts.old mids.old prints.old }
    ensures { SignalsAs s.now starts.new mids.new prints.new result }
{
    if TEXT_LIMIT < s.len() {
        return Err(SignalsError::PastLimit);
    }
    if !valid(s) {
        return Err(SignalsError::NotUtf8);
    }
    starts[0] = 0;
    read_lines(s, starts, mids, prints)
}
