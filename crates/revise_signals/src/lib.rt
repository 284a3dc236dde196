// The S lines of an entry, without `S|`, one after another.
#![tactic(auto)]

ghost use Rattle.std.specs.Prelude.{◌≤◌, ◌≡◌, length};
ghost use Rattle.utf8.specs.Alone.{text_limit};
ghost use Rattle.revise_signals.specs.Taken.{TakenAs};

use revise_line::{is_signal, line_end};
use text::put_part;

// Where the S lines end, and how many bytes they have without `S|`.
#[derive(Clone, Copy)]
pub struct Taken {
    pub end: usize,
    pub size: usize,
}

// Copies the S lines of s from `from` on, each without `S|`, to the start of `signals`, where there are not too many bytes.
pub fn take_signals(s: &[u8], from: usize, signals: &mut [u8]) -> Option<Taken>
    requires from_in_bounds { from ≤ length s.now }
    requires signals_len { length signals.old ≡ text_limit }
    ensures { TakenAs s.now from signals.new result }
{
    let n = s.len();
    let room = signals.len();
    let mut at = from;
    let mut size = 0;
    while at < n {
        let end = line_end(s, at);
        if !is_signal(s, at, end) {
            break;
        }
        if room - size < end - (at + 2) {
            return None;
        }
        size = put_part(signals, size, s, at + 2, end);
        at = end;
    }
    Some(Taken { end: at, size })
}
