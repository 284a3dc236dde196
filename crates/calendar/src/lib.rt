// The Gregorian calendar of the years 1970 to 2099: which days there are, and the number of each, counted from 1970-01-01.
#![tactic(auto)]

ghost use Rattle.std.specs.Prelude.{◌≡◌, true, ◌<◌};
ghost use Rattle.calendar.specs.Calendar.{leap_year, month_length, month_first, day_number, real_day, Month};

// Whether a year is a leap year.
#[tactic(auto, unfolding(crate::specs::Calendar::leap_year))]
fn leap_year(y: u64) -> bool
    ensures { result ≡ leap_year y }
{
    y % 4 == 0 && (y % 100 != 0 || y % 400 == 0)
}

// The days of a month.
#[tactic(auto, unfolding(crate::specs::Calendar::month_length))]
fn month_length(y: u64, m: u64) -> u64
    ensures { result ≡ month_length y m }
{
    match m {
        2 if leap_year(y) => 29,
        2 => 28,
        4 | 6 | 9 | 11 => 30,
        _ => 31,
    }
}

// Whether there is such a day.
#[tactic(auto, unfolding(crate::specs::Calendar::real_day))]
pub fn is_day(y: u64, m: u64, d: u64) -> bool
    ensures { result ≡ real_day y m d }
{
    (1970..=2099).contains(&y) && (1..=12).contains(&m) && (1..=month_length(y, m)).contains(&d)
}

// The number of the first of a month. Of these years every fourth has a leap day, which counts from March on; and from March on the months
// are 31, 30, 31, 30 and 31 days long, again and again.
fn month_first(y: u64, m: u64) -> u64
    requires { Month y m }
    ensures { result ≡ month_first y m }
{
    let years = 365 * (y - 1970);
    if m <= 2 {
        years + (y - 1969) / 4 + 31 * (m - 1)
    } else {
        years + (y - 1968) / 4 + 59 + (153 * (m - 3) + 2) / 5
    }
}

// The number of a day, of which there are 47,482.
pub fn day_number(y: u64, m: u64, d: u64) -> u64
    requires { real_day y m d ≡ true }
    ensures { (result ≡ day_number y m d) × (result < 47_482) }
{
    month_first(y, m) + (d - 1)
}
