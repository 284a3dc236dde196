// The run program's bars: each line is read, and each bar is fed with its signals and printed.
#![tactic(auto)]

ghost use Rattle.std.specs.Prelude.{◌+◌, ◌<◌, ◌≤◌, length, take};
ghost use Rattle.text.specs.Read.{FirstAt};
ghost use Rattle.text.specs.Text.{LF};
ghost use Rattle.run_output.specs.Shown.{feed_room};
ghost use Rattle.run_rows.specs.Rows.{Booked};
ghost use Rattle.run_feed.specs.Steps.{WaitingOk, FedWaiting, SignalAdded, starting, Running, TakenAs, FedAs};

use bar::BarNumbers;
use run_feed_one::feed_one;
use run_input::{InputError, InputLine, read_line};
use text::{LF, find, put_part};

// What waits, how many bytes its signals have, and how many were printed.
#[derive(Clone, Copy)]
struct Progress {
    waiting: Option<BarNumbers>,
    signals: usize,
    at: usize,
}

// Feeds the bar that waits, where there is one.
fn feed_waiting(table: &[u8], book: &mut [u8], p: Progress, signals: &[u8], out: &mut [u8]) -> usize
    requires booked { Booked table.now book.old }
    requires waiting_ok { WaitingOk p.waiting }
    requires signals_in_bounds { p.signals ≤ length signals.now }
    requires feed_room_in_bounds { p.at + feed_room ≤ length out.old }
    ensures { FedWaiting table.now book.old book.new p.waiting (take p.signals signals.now) out.old out.new p.at result }
{
    match p.waiting {
        Some(b) => feed_one(table, book, b, &signals[..p.signals], out, p.at),
        None => p.at,
    }
}

// Adds a line of signals, from..to of s with its LF, to the bar that waits.
fn add_signal(
    s: &[u8],
    from: usize,
    to: usize,
    signals: &mut [u8],
    p: Progress,
) -> Result<Progress, InputError>
    requires from_bound { (from + 2 ≤ to) × (to < length s.now) }
    requires to_bound { p.signals + to ≤ from + length signals.old }
    ensures { SignalAdded s.now from to signals.old signals.new p result }
{
    if p.waiting.is_none() {
        return Err(InputError::Malformed);
    }
    let n = put_part(signals, p.signals, s, from + 2, to + 1);
    Ok(Progress { signals: n, ..p })
}

// Takes the line of s in from..to: a bar feeds the one before it, and waits for its signals.
fn take_line(
    table: &[u8],
    book: &mut [u8],
    s: &[u8],
    from: usize,
    to: usize,
    signals: &mut [u8],
    out: &mut [u8],
    p: Progress,
) -> Result<Progress, InputError>
    requires running { Running s.now table.now book.old signals.old out.old p from }
    requires first_at { FirstAt s.now from (length s.now) LF to }
    requires to_in_bounds { to < length s.now }
    ensures { TakenAs s.now table.now book.new signals.new out.new to result }
{
    match read_line(s, from, to)? {
        InputLine::Bar(b) => {
            let at = feed_waiting(table, book, p, signals, out);
            Ok(Progress {
                waiting: Some(b),
                signals: 0,
                at,
            })
        }
        InputLine::Signal => add_signal(s, from, to, signals, p),
    }
}

// Feeds the bars that the lines of s say from `from` on.
pub fn feed_lines(
    table: &[u8],
    book: &mut [u8],
    s: &[u8],
    from: usize,
    signals: &mut [u8],
    out: &mut [u8],
) -> Result<usize, InputError>
    requires { Running s.now table.now book.old signals.old out.old starting from }
    ensures { FedAs s.now table.now book.new out.new result }
{
    let n = s.len();
    let mut p = Progress {
        waiting: None,
        signals: 0,
        at: 0,
    };
    let mut i = from;
    while i < n {
        let end = find(s, i, n, LF);
        if end == n {
            return Err(InputError::Malformed);
        }
        p = take_line(table, book, s, i, end, signals, out, p)?;
        i = end + 1;
    }
    Ok(feed_waiting(table, book, p, signals, out))
}
