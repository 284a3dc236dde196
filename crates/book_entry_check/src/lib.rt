// Code only: the checks of a hold and of a record in their 32 bytes.
#![tactic(auto)]

ghost use Rattle.std.specs.Prelude.{◌≡◌, ◌+◌, ◌≤◌, length};
ghost use Rattle.std.specs.Float.Ieee.Scale.{finite};
ghost use Rattle.le.specs.Field.{u8, f64};
ghost use Rattle.bar.specs.Bar.{time_ok};
ghost use Rattle.position.specs.State.{trades as State·trades};
ghost use Rattle.book.specs.Layout.{time_at};
ghost use Rattle.book.specs.Check.{zeros as Check·zeros, stored_yield_ok, held_lots_ok, hold_ok, description_ok, record_ok};

use bar::LAST_ID;
use book_field::{double_at, pos_at, time_at, time_ok};
use double::is_finite;
use le::{get_u16, get_u32, get_u64, is_nan_bits};
use operate::{LE, LO, SE, SO};
use position_machine::held_lots;

// The most lots.
const LOTS_LIMIT: u16 = sheet::LOTS_LIMIT as u16;

// Whether the n bytes of b from `at` on are zero.
pub fn zeros(b: &[u8], at: usize, n: usize) -> bool
    requires { at + n ≤ length b.now }
    ensures { result ≡ Check·zeros b.now at n }
{
    b[at..at + n].iter().all(|x| *x == 0)
}

// Whether the time is in range whose instant starts at `at`, and its offset at `offset`.
pub fn is_timed(b: &[u8], at: usize, offset: usize) -> bool
    requires { (at + 8 ≤ length b.now) × (offset + 4 ≤ length b.now) }
    ensures { result ≡ time_ok (time_at b.now at offset) }
{
    time_ok(time_at(b, at, offset))
}

// Whether the double is finite whose bits start at `at`.
pub fn is_priced(b: &[u8], at: usize) -> bool
    requires { at + 8 ≤ length b.now }
    ensures { result ≡ finite (f64 b.now at) }
{
    is_finite(double_at(b, at))
}

// Whether the yield of a hold is right by its presence byte: zero where absent, else no NaN.
fn stored_yield_ok(o: &[u8]) -> bool
    requires { 32 ≤ length o.now }
    ensures { result ≡ stored_yield_ok o.now (u8 o.now 13) }
{
    match o[13] {
        0 => zeros(o, 24, 8),
        1 => !is_nan_bits(get_u64(o, 24)),
        _ => false,
    }
}

// Whether an operate is LO, LE, SO or SE.
fn trades(operate: u8) -> bool
    ensures { result ≡ State·trades operate }
{
    matches!(operate, LO | LE | SO | SE)
}

// Whether a description's code and event index are right, with n events in the table.
fn description_ok(n: u32, code: u8, event: u16) -> bool
    ensures { result ≡ description_ok n code event }
{
    match code {
        1 => u32::from(event) < n,
        2 | 3 => event == 0,
        _ => false,
    }
}

// Whether the lots of a hold are right by its position: none when Flat.
fn held_lots_ok(o: &[u8]) -> bool
    requires { 32 ≤ length o.now }
    ensures { result ≡ held_lots_ok o.now }
{
    get_u16(o, 14) <= held_lots(pos_at(o[12]), LOTS_LIMIT)
}

// Whether a hold is in range.
#[tactic(auto, unfolding(text::specs::Conditions::all_of, book::specs::Check::hold_ok))]
pub fn hold_ok(o: &[u8]) -> bool
    requires { 32 ≤ length o.now }
    ensures { result ≡ hold_ok o.now }
{
    is_timed(o, 0, 8) && o[12] <= 2 && stored_yield_ok(o) && held_lots_ok(o) && is_priced(o, 16)
}

// Whether a record is in range, with n events in the table.
#[tactic(auto, unfolding(text::specs::Conditions::all_of, book::specs::Check::record_ok))]
pub fn record_ok(o: &[u8], n: u32) -> bool
    requires { 32 ≤ length o.now }
    ensures { result ≡ record_ok n o.now }
{
    is_timed(o, 0, 8)
        && get_u32(o, 12) <= LAST_ID
        && is_priced(o, 16)
        && trades(o[24])
        && o[25] <= 2
        && description_ok(n, o[26], get_u16(o, 28))
        && o[27] == 0
        && get_u16(o, 30) <= LOTS_LIMIT
}
