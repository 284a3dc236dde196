// A bar and its times: instants, local times, days and the seconds between two instants.
#![tactic(auto)]

ghost use Rattle.std.specs.Prelude.{◌≡◌, ◌<◌, ◌^◌};
ghost use Rattle.std.specs.Int.Signed.{mag};
ghost use Rattle.bar.specs.Time.{local_time, day_of, seconds_between};

// The last id and instant of a bar, and the largest offset in either direction.
pub const LAST_ID: u32 = 2_147_483_647;

pub const LAST_INSTANT: i64 = 4_102_444_799_999_999;

pub const LAST_OFFSET: i32 = 86_399;

// Microseconds from 1970 UTC.
#[derive(Clone, Copy)]
pub struct Instant(pub i64);

// Microseconds from 1970 of the wall clock. Only an instant with its offset becomes one: the field is private.
#[derive(Clone, Copy)]
pub struct LocalTime(i64);

// An instant, with the offset of its wall clock in seconds.
#[derive(Clone, Copy)]
pub struct Time {
    pub instant: Instant,
    pub offset: i32,
}

// A bar: its number, its time and its price.
#[derive(Clone, Copy)]
pub struct Bar {
    pub id: u32,
    pub time: Time,
    pub price: f64,
}

// The four numbers of a bar as they are given, in range or not.
#[derive(Clone, Copy)]
pub struct BarNumbers {
    pub id: i64,
    pub instant: i64,
    pub offset: i64,
    pub price: f64,
}

impl Instant {
    // The wall clock's time at this instant, for an offset in seconds.
    #[tactic(auto, unfolding(crate::specs::Time::local_time))]
    pub fn local(self, offset: i32) -> LocalTime
        requires { mag self.0 < 2 ^ 62 }
        ensures { result.0 ≡ local_time self.0 offset }
    {
        LocalTime(self.0 + i64::from(offset) * 1_000_000)
    }

    // The whole seconds from this instant to a later one.
    pub fn seconds_to(self, later: Instant) -> i64
        requires fact_1 { mag self.0 < 2 ^ 62 }
        requires fact_2 { mag later.0 < 2 ^ 62 }
        ensures { (result ≡ seconds_between self.0 later.0) × (mag result < 2 ^ 53) }
    {
        (later.0 - self.0) / 1_000_000
    }
}

impl LocalTime {
    // The microseconds.
    pub fn micros(self) -> i64
        ensures { result ≡ self.0 }
    {
        self.0
    }

    // The day, rounded down before 1970 too, where a day opens so many minutes before midnight.
    #[tactic(auto, unfolding(crate::specs::Time::day_of))]
    pub fn day(self, evening: u16) -> i64
        requires { mag self.0 < 2 ^ 62 }
        ensures { result ≡ day_of evening self.0 }
    {
        (self.0 + i64::from(evening) * 60_000_000).div_euclid(86_400_000_000)
    }
}
