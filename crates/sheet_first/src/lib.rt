// A position sheet's first line: its name, its symbol and the settings.
#![tactic(auto)]

ghost use Rattle.std.specs.Prelude.{◌≡◌, ◌+◌, ◌≤◌, length};
ghost use Rattle.std.proofs.Math.Seq.{slice};
ghost use Rattle.text.specs.Number.{at_most, digits_to};
ghost use Rattle.text.specs.Read.{Part};
ghost use Rattle.sheet.specs.Read.{minutes_in};
ghost use Rattle.sheet.specs.Places.{fields_of, behind};
ghost use Rattle.sheet_first.specs.First.{Names, SettingsAs, PositionAs};

use sheet::{
    EVENING_LIMIT, INTERVAL_LIMIT, NAME_LIMIT, STOP_LIMIT, SheetAt, SheetError, T0_LIMIT,
    TIMEOUT_LIMIT,
};
use stop::read_stop;
use text::{PIPE, count_parts, find};
use text_number::decimal;

// The number in the field from..to, where it is not above hi.
fn unsigned(s: &[u8], from: usize, to: usize, hi: u64) -> Option<u64>
    requires { Part s.now from to }
    ensures { result ≡ at_most hi (digits_to 10 (slice from to s.now)) }
{
    decimal(s, from, to, 10).filter(|&v| v <= hi)
}

// The minutes in the field behind t0's, which ends at `at`; 0 where there is none.
fn evening_minutes(s: &[u8], at: usize, to: usize) -> Option<u64>
    requires { Part s.now at to }
    ensures { result ≡ minutes_in (behind s.now at to) }
{
    if at < to {
        unsigned(s, at + 1, to, EVENING_LIMIT)
    } else {
        Some(0)
    }
}

// The numbers of a first line, whose name and symbol end at the places: four, or five.
fn settings(s: &[u8], name: usize, symbol: usize, to: usize) -> Result<SheetAt, SheetError>
    requires names { Names s.now name symbol to }
    requires in_bounds_1 { 4 ≤ length (fields_of s.now (symbol + 1) to) }
    requires in_bounds_2 { length (fields_of s.now (symbol + 1) to) ≤ 5 }
    ensures { SettingsAs s.now name symbol to result }
{
    let a = find(s, symbol + 1, to, PIPE);
    let interval = unsigned(s, symbol + 1, a, INTERVAL_LIMIT).ok_or(SheetError::BadNumber)?;
    let b = find(s, a + 1, to, PIPE);
    let timeout = unsigned(s, a + 1, b, TIMEOUT_LIMIT).ok_or(SheetError::BadNumber)?;
    let c = find(s, b + 1, to, PIPE);
    let stop = read_stop(s, b + 1, c, STOP_LIMIT).ok_or(SheetError::BadNumber)?;
    let d = find(s, c + 1, to, PIPE);
    let t0 = unsigned(s, c + 1, d, T0_LIMIT).ok_or(SheetError::BadNumber)?;
    let evening = evening_minutes(s, d, to).ok_or(SheetError::BadNumber)?;
    Ok(SheetAt {
        name,
        symbol,
        interval,
        timeout,
        stop,
        t0,
        evening,
        events: 0,
        clauses: 0,
    })
}

// The first line, which ends at `to`.
pub fn position_line(s: &[u8], to: usize) -> Result<SheetAt, SheetError>
    requires { Part s.now 0 to }
    ensures { PositionAs s.now to result }
{
    let fields = count_parts(s, 0, to, PIPE);
    // Two tests in place of a range: each bound is a fact by itself for what follows.
    if fields < 7 || 8 < fields {
        return Err(SheetError::Malformed);
    }
    if s[0] != b'P' || s[1] != PIPE {
        return Err(SheetError::Malformed);
    }
    let name = find(s, 2, to, PIPE);
    if NAME_LIMIT < name - 2 {
        return Err(SheetError::PastLimit);
    }
    let symbol = find(s, name + 1, to, PIPE);
    if NAME_LIMIT < symbol - (name + 1) {
        return Err(SheetError::PastLimit);
    }
    settings(s, name, symbol, to)
}
