// Steps 1 to 6 of a bar. A rule that the two sides share takes the side.
ghost use Rattle.std.specs.Prelude.{ℕ, ◌≡◌, true, not, ◌&&◌};
ghost use Rattle.bar.specs.Bar.{time_ok, day_at};
ghost use Rattle.position.specs.State.{open_in_range};
ghost use Rattle.position.specs.Step.{open_of, close_of, pos_of, on, last_open, allowed, different_day, may_close, stopped, timed_out, write, open_now, reference_for, open_or_close, closing, going};
ghost use Rattle.position.specs.Step.{other as Step·other, arrive as Step·arrive};
ghost use Rattle.position_machine.specs.Update.{of_settings, going_of, TimesOk};
ghost use Rattle.position_machine.specs.Rules.{silent, exit_of};

use super::Update;
use bar::{Bar, Time};
use double::{Side, stop_hit};
use operate::{LE, LO, SE, SO, is_opening};
use position::{Choice, Description, Head, LastEvent, Pos, Record};
use stop::stop_double;
use table::Settings;

// The side against this one.
fn other(side: Side) -> Side
    ensures { result ≡ Step·other side }
{
    match side {
        Side::Long => Side::Short,
        Side::Short => Side::Long,
    }
}

// The operate that opens the side.
fn open_operate(side: Side) -> u8
    ensures { result ≡ open_of side }
{
    match side {
        Side::Long => LO,
        Side::Short => SO,
    }
}

// The operate that closes the side.
fn close_operate(side: Side) -> u8
    ensures { result ≡ close_of side }
{
    match side {
        Side::Long => LE,
        Side::Short => SE,
    }
}

// The position on the side.
fn side_pos(side: Side) -> Pos
    ensures { result ≡ pos_of side }
{
    match side {
        Side::Long => Pos::Long,
        Side::Short => Pos::Short,
    }
}

// Whether the position is on the side.
fn is_on(side: Side, pos: Pos) -> bool
    ensures { result ≡ on side pos }
{
    pos == side_pos(side)
}

// The time of the side's last opening, if there was one.
fn last_open(side: Side, h: Head) -> Option<Time>
    ensures { result ≡ last_open side h }
{
    match side {
        Side::Long => h.long,
        Side::Short => h.short,
    }
}

// The day of a time on its wall clock, where a day opens so many minutes before midnight.
fn local_day(t: Time, evening: u16) -> i64
    requires { time_ok t ≡ true }
    ensures { result ≡ day_at evening t }
{
    t.instant.local(t.offset).day(evening)
}

// Whether there was no last opening, or its day is not the bar's.
fn is_different_day(evening: u16, bar: Bar, last: Option<Time>) -> bool
    requires fact_1 { time_ok bar.time ≡ true }
    requires fact_2 { open_in_range last ≡ true }
    ensures { result ≡ different_day evening bar last }
{
    match last {
        None => true,
        Some(t) => local_day(t, evening) != local_day(bar.time, evening),
    }
}

// Whether there was no last opening, or more whole seconds than the interval lie between: equality does not pass.
fn allow_open(k: Settings, bar: Bar, last: Option<Time>) -> bool
    requires fact_1 { time_ok bar.time ≡ true }
    requires fact_2 { open_in_range last ≡ true }
    ensures { result ≡ allowed (of_settings k) bar last }
{
    match last {
        None => true,
        Some(t) => t.instant.seconds_to(bar.time.instant) > k.interval as i64,
    }
}

// Whether t0 lets a side that was last opened then close on this bar, or else the day does.
fn allowed_by_t0(k: Settings, bar: Bar, last: Option<Time>) -> bool
    requires fact_1 { time_ok bar.time ≡ true }
    requires fact_2 { open_in_range last ≡ true }
    ensures { result ≡ may_close (of_settings k) bar last }
{
    k.t0 == 1 || is_different_day(k.evening, bar, last)
}

// Whether the position is not on the side yet, and an opening is allowed.
fn can_open(k: Settings, bar: Bar, side: Side, h: Head) -> bool
    requires { TimesOk bar h }
    ensures { result ≡ allowed (of_settings k) bar (last_open side h) && not (on side h.pos) }
{
    !is_on(side, h.pos) && allow_open(k, bar, last_open(side, h))
}

// Whether the position is on the side, and may close.
fn can_close(k: Settings, bar: Bar, side: Side, h: Head) -> bool
    requires { TimesOk bar h }
    ensures { result ≡ on side h.pos && may_close (of_settings k) bar (last_open side h) }
{
    is_on(side, h.pos) && allowed_by_t0(k, bar, last_open(side, h))
}

// Whether the price has passed the stop, against the reference's.
#[tactic(auto, unfolding(position::specs::Step::stopped))]
fn is_stopped(k: Settings, side: Side, bar: Bar, e: LastEvent) -> bool
    ensures { result ≡ stopped (of_settings k) side bar e }
{
    stop_hit(side, stop_double(k.stop as u64), e.bar.price, bar.price)
}

// Whether the id is more than the timeout past the reference's: equality does not pass, nor does an id below the reference's.
#[tactic(auto, unfolding(position::specs::Step::timed_out))]
fn is_timed_out(k: Settings, bar: Bar, e: LastEvent) -> bool
    ensures { result ≡ timed_out (of_settings k) bar e }
{
    bar.id.saturating_sub(e.bar.id) > k.timeout
}

// The reference from this bar on: an LO or SO makes the bar and its event the reference.
fn last_event(bar: Bar, c: Choice, last: Option<LastEvent>) -> Option<LastEvent>
    ensures { result ≡ reference_for bar c last }
{
    if is_opening(c.operate) {
        Some(LastEvent {
            bar,
            operate: c.operate,
            event: c.event as u32,
        })
    } else {
        last
    }
}

// The header as the bar comes: not changed, and ended by the bar.
#[tactic(auto, unfolding(position::specs::Step::arrive))]
fn arrive(bar: Bar, c: Choice, h: Head) -> Head
    ensures { (lots : ℕ) → silent result lots ≡ Step·arrive bar c lots h }
{
    Head {
        changed: false,
        end: bar.time,
        reference: last_event(bar, c, h.reference),
        ..h
    }
}

// The header with the side's last opening at the bar.
fn open_now(side: Side, bar: Bar, h: Head) -> Head
    ensures { (lots : ℕ) → silent result lots ≡ open_now side bar (silent h lots) }
{
    match side {
        Side::Long => Head {
            long: Some(bar.time),
            ..h
        },
        Side::Short => Head {
            short: Some(bar.time),
            ..h
        },
    }
}

// The header changed to a position, and the record of it with the lots opened or closed.
#[tactic(auto, unfolding(position::specs::Step::write))]
fn create_operate_record(
    bar: Bar,
    operate: u8,
    pos: Pos,
    description: Description,
    lots: u16,
    h: Head,
) -> Update
    ensures { (before : ℕ) → going_of result ≡ write bar operate pos description lots (silent h before) }
{
    let record = Record {
        bar,
        operate,
        pos,
        description,
        lots,
    };
    Update {
        head: Head {
            pos,
            changed: true,
            ..h
        },
        lots,
        wrote: Some(record),
    }
}

// The side's opening; or, where that cannot be, the closing of the other side.
fn open_or_close(k: Settings, bar: Bar, c: Choice, side: Side, lots: u16, h: Head) -> Update
    requires { TimesOk bar h }
    ensures { going_of result ≡ open_or_close (of_settings k) bar c side (silent h lots) }
{
    let description = Description::Event(c.event);
    let against = other(side);
    if can_open(k, bar, side, h) {
        let opened = open_now(side, bar, h);
        create_operate_record(
            bar,
            open_operate(side),
            side_pos(side),
            description,
            c.lots,
            opened,
        )
    } else if can_close(k, bar, against, h) {
        create_operate_record(bar, close_operate(against), Pos::Flat, description, lots, h)
    } else {
        Update {
            head: h,
            lots,
            wrote: None,
        }
    }
}

// What closes the side, if anything does: the event, else the stop, else the timeout.
fn exit_desc(
    k: Settings,
    bar: Bar,
    c: Choice,
    side: Side,
    last: Option<LastEvent>,
) -> Option<Description>
    ensures { result ≡ exit_of (of_settings k) bar c side last }
{
    let e = last?;
    if c.operate == close_operate(side) {
        Some(Description::Event(c.event))
    } else if is_stopped(k, side, bar, e) {
        Some(Description::Stop)
    } else if is_timed_out(k, bar, e) {
        Some(Description::Timeout)
    } else {
        None
    }
}

// The side's closing.
fn close(k: Settings, bar: Bar, c: Choice, side: Side, lots: u16, h: Head) -> Update
    requires { TimesOk bar h }
    ensures { going_of result ≡ closing (of_settings k) bar c side (silent h lots) }
{
    let same = Update {
        head: h,
        lots,
        wrote: None,
    };
    if !can_close(k, bar, side, h) {
        return same;
    }
    match exit_desc(k, bar, c, side, h.reference) {
        None => same,
        Some(description) => create_operate_record(
            bar,
            close_operate(side),
            Pos::Flat,
            description,
            lots,
            h,
        ),
    }
}

// The header after the bar, whose signals chose c, with the lots open before it: an LO or SO opens alone; else the sides close, and after a closing
// no other.
pub fn update(k: Settings, bar: Bar, c: Choice, lots: u16, h: Head) -> Update
    requires { TimesOk bar h }
    ensures { going_of result ≡ going (of_settings k) bar c lots h }
{
    let arrived = arrive(bar, c, h);
    if c.operate == LO {
        return open_or_close(k, bar, c, Side::Long, lots, arrived);
    }
    if c.operate == SO {
        return open_or_close(k, bar, c, Side::Short, lots, arrived);
    }
    let u = close(k, bar, c, Side::Long, lots, arrived);
    match u.wrote {
        None => close(k, bar, c, Side::Short, lots, arrived),
        Some(_) => u,
    }
}
