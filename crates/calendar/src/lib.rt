// The calendar: the date, the weekday and the time of day of a timestamp.
#![tactic(auto)]

ghost use Rattle.std.specs.Prelude.{◌≡◌, ◌/◌, ◌%◌, ◌≤◌, ◌<◌};
ghost use Rattle.numerals.specs.Integers.{int_of};
ghost use Rattle.calendar.specs.Dates.{is_leap, days_of, month_length, year_length, year_day, month_day};
ghost use Rattle.calendar.specs.Moments.{since_year0, moment_of};
ghost use Rattle.calendar.specs.Steps.{evened};

// The seconds from the beginning of the year 0 to 1970-01-01: 719,528 days.
const EPOCH_SECONDS: u64 = 62167219200;

// A moment of UTC. Months, days and the ordinal, which is the day of the year, count from 1, weekdays from Monday, 0.
#[derive(Clone, Copy)]
pub struct Moment {
    pub year: u64,
    pub month: u64,
    pub day: u64,
    pub ordinal: u64,
    pub weekday: u64,
    pub hour: u64,
    pub minute: u64,
    pub second: u64,
    pub nanos: u64,
}

#[tactic(auto, unfolding(crate::specs::Dates::is_leap))]
fn is_leap(year: u64) -> bool
    ensures { result ≡ is_leap year }
{
    year % 4 == 0 && (year % 100 != 0 || year % 400 == 0)
}

// The days of the years before this one, from the year 0 on.
#[tactic(auto, using(crate::proofs::Years::days_before))]
fn days_before(year: u64) -> u64
    requires { year < 100000 }
    ensures { result ≡ days_of year_length 0 year }
{
    365 * year + (year + 3) / 4 + (year + 399) / 400 - (year + 99) / 100
}

// The year of a day, and the days of the year before it. 400 years have 146,097 days, so that the year is at most one too small.
#[tactic(auto, using(crate::proofs::Estimate::not_behind))]
fn year_day(day: u64) -> (u64, u64)
    requires { (2 ≤ day) × (day < 10000000) }
    ensures { (result.0 ≡ (year_day day).0) × (result.1 ≡ (year_day day).1) }
{
    let year = (day - 2) * 400 / 146097;
    let next = days_before(year + 1);
    if next <= day {
        (year + 1, day - next)
    } else {
        (year, day - days_before(year))
    }
}

// A day of a year, counted from 0, as it is counted where February has 30 days.
fn evened(leap: bool, day: u64) -> u64
    requires { day < 366 }
    ensures { result ≡ evened leap day }
{
    match (leap, day) {
        (true, 0..60) | (false, 0..59) => day,
        (true, _) => day + 1,
        (false, _) => day + 2,
    }
}

// The month of a day of a year, and the days of the month before it. Where February has 30 days, a line over the months gives where they begin.
#[tactic(auto, using(crate::proofs::Finite::longest, crate::proofs::Finite::on_the_line))]
fn month_day(leap: bool, day: u64) -> (u64, u64)
    requires { day < days_of (month_length leap) 0 12 }
    ensures { (result.0 ≡ (month_day leap day).0) × (result.1 ≡ (month_day leap day).1) }
{
    let even = evened(leap, day);
    let month = (even * 12 + 6) / 367;
    (month, even - (month * 367 + 5) / 12)
}

// The seconds from the beginning of the year 0, and the nanoseconds behind the last of them.
#[tactic(auto, using(crate::proofs::Epoch::magnitude_within, crate::proofs::Epoch::forward, crate::proofs::Epoch::back))]
fn seconds_of(timestamp: u64) -> (u64, u64)
    ensures { (result.0 ≡ since_year0 (int_of 64 timestamp) / 1000000000) × (result.1 ≡ since_year0 (int_of 64 timestamp) % 1000000000) }
{
    let magnitude = numerals::integers::magnitude(timestamp);
    if numerals::integers::is_negative(timestamp) {
        let back = (magnitude + 999999999) / 1000000000;
        (EPOCH_SECONDS - back, back * 1000000000 - magnitude)
    } else {
        (
            EPOCH_SECONDS + magnitude / 1000000000,
            magnitude % 1000000000,
        )
    }
}

// The moment of a timestamp, nanoseconds since 1970-01-01 in 64 bits of two's complement.
#[tactic(auto, using(crate::proofs::Epoch::ranges))]
pub fn moment_of(timestamp: u64) -> Moment
    ensures { result ≡ moment_of (int_of 64 timestamp) }
{
    let (seconds, nanos) = seconds_of(timestamp);
    let day = seconds / 86400;
    let time = seconds % 86400;
    let (year, in_year) = year_day(day);
    let (month, in_month) = month_day(is_leap(year), in_year);
    Moment {
        year,
        month: month + 1,
        day: in_month + 1,
        ordinal: in_year + 1,
        weekday: (day + 5) % 7,
        hour: time / 3600,
        minute: time / 60 % 60,
        second: time % 60,
        nanos,
    }
}
