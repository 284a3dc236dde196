// The time of a line of the exchange's comma file, read: `YYYY-MM-DD HH:MM:SS+HH:MM`.
#![tactic(auto)]

ghost use Rattle.std.specs.Prelude.{◌≡◌, ◌+◌, ◌≤◌, length};
ghost use Rattle.bar_line.specs.Line.{pair_at, date_of, minutes_of, clock_of, offset_of, stamp_of};
ghost use Rattle.bar_line_stamp.specs.Read.{NumberAs, OffsetAs, stamp_read_of};

use bar_line::Stamp;
use calendar::{day_number, is_day};
use text_number::decimal;

// The number of two digits of s from `at` on, where it is not above hi.
fn read_pair(s: &[u8], at: usize, hi: u64) -> Option<u64>
    requires { at + 2 ≤ length s.now }
    ensures { NumberAs (pair_at s.now at hi) hi result }
{
    let v = decimal(s, at, at + 2, 2)?;
    (v <= hi).then_some(v)
}

// `YYYY-MM-DD`: the number of the day.
#[tactic(auto, unfolding(bar_line::specs::Line::date_of))]
fn read_date(s: &[u8]) -> Option<u64>
    requires { length s.now ≡ 25 }
    ensures { NumberAs (date_of s.now) 47_481 result }
{
    let y = decimal(s, 0, 4, 4)?;
    let m = decimal(s, 5, 7, 2)?;
    let d = decimal(s, 8, 10, 2)?;
    if s[4] == b'-' && s[7] == b'-' && is_day(y, m, d) {
        Some(day_number(y, m, d))
    } else {
        None
    }
}

// `HH:MM` from `at` on: minutes.
#[tactic(auto, unfolding(bar_line::specs::Line::minutes_of))]
fn read_minutes(s: &[u8], at: usize) -> Option<u64>
    requires { at + 5 ≤ length s.now }
    ensures { NumberAs (minutes_of s.now at) 1_439 result }
{
    let h = read_pair(s, at, 23)?;
    let m = read_pair(s, at + 3, 59)?;
    (s[at + 2] == b':').then_some(h * 60 + m)
}

// `HH:MM:SS`: seconds from midnight.
#[tactic(auto, unfolding(bar_line::specs::Line::clock_of))]
fn read_clock(s: &[u8]) -> Option<u64>
    requires { length s.now ≡ 25 }
    ensures { NumberAs (clock_of s.now) 86_399 result }
{
    let m = read_minutes(s, 11)?;
    let x = read_pair(s, 17, 59)?;
    (s[16] == b':').then_some(m * 60 + x)
}

// `+HH:MM` or `-HH:MM`: the seconds that the wall clock is ahead of UTC.
#[tactic(auto, unfolding(bar_line::specs::Line::offset_of))]
fn read_offset(s: &[u8]) -> Option<i64>
    requires { length s.now ≡ 25 }
    ensures { OffsetAs (offset_of s.now) result }
{
    let seconds = (read_minutes(s, 20)? * 60) as i64;
    match s[19] {
        b'+' => Some(seconds),
        b'-' => Some(-seconds),
        _ => None,
    }
}

// The time of a line.
#[tactic(auto, unfolding(bar_line::specs::Line::stamp_of))]
pub fn read_stamp(s: &[u8]) -> Option<Stamp>
    ensures { stamp_read_of result ≡ stamp_of s.now }
{
    if s.len() != 25 {
        return None;
    }
    let day = read_date(s)?;
    let clock = read_clock(s)?;
    let offset = read_offset(s)?;
    if s[10] != b' ' {
        return None;
    }
    let wall = (day * 86_400 + clock) as i64;
    Some(Stamp {
        instant: (wall - offset) * 1_000_000,
        offset,
    })
}
