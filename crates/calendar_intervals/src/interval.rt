//! The days, months and years of UTC: where the one begins that a moment lies in, and where the next one does.
ghost use Rattle.std.specs.Prelude.{◌≡◌, ◌↔◌, ℤ, pos, negsuc, ◌≤ℤ◌, ◌<ℤ◌, IsSome, IfSome, Contains};
ghost use Rattle.jiff_core.specs.Calendar.{IsBetween};
ghost use Rattle.jiff_core.specs.Date.{epoch_day};
ghost use Rattle.calendar_intervals.specs.Starts.{starts, start_of, next_of, years_begin, years_end, IsFirstDay, IsLastDay};

use jiff::civil::Date;
use jiff_core::civil::Date as PlainDate;

const DAY_MILLIS: i64 = 86_400_000;

/// The day number of 0000-01-01.
const FIRST_DAY: i64 = -719_528;

/// The day number of 9999-12-31.
const LAST_DAY: i64 = 2_932_896;

/// A part of the proleptic Gregorian calendar (ISO 8601) in UTC.
#[derive(Clone, Copy, Debug, PartialEq, Eq)]
pub enum Interval {
    Day,
    Month,
    Year,
}

/// Where the interval begins that the moment lies in: the greatest start that isn't after it, both in milliseconds since
/// 1970-01-01T00:00:00Z. `None` exactly where the moment lies outside the years 0000 to 9999 (the calendar intervals of a
/// date histogram in the Elasticsearch reference). Takes no memory.
pub fn start(millis: i64, interval: Interval) -> Option<i64>
    ensures value { result ≡ start_of interval millis }
    ensures some { IsSome result ↔ ((years_begin ≤ℤ millis) × (millis <ℤ years_end)) }
    ensures begins { IfSome result (λ s. Contains (starts interval) s × (s ≤ℤ millis)) }
    ensures greatest { IfSome result (λ s. (t : ℤ) → Contains (starts interval) t → t ≤ℤ millis → t ≤ℤ s) }
{
    let day = millis.div_euclid(DAY_MILLIS);
    if day < FIRST_DAY || day > LAST_DAY {
        return None;
    }
    Some(first_day(day, interval) * DAY_MILLIS)
}

/// Where the next interval begins: the least start after the moment, both in milliseconds since 1970-01-01T00:00:00Z.
/// `None` exactly where no interval of the years 0000 to 9999 begins after it. Takes no memory.
pub fn next(millis: i64, interval: Interval) -> Option<i64>
    ensures value { result ≡ next_of interval millis }
    ensures begins { IfSome result (λ s. Contains (starts interval) s × (millis <ℤ s)) }
    ensures least { IfSome result (λ s. (t : ℤ) → Contains (starts interval) t → millis <ℤ t → s ≤ℤ t) }
{
    let day = millis.div_euclid(DAY_MILLIS);
    if day < FIRST_DAY {
        return Some(FIRST_DAY * DAY_MILLIS);
    }
    if day > LAST_DAY {
        return None;
    }
    let last = last_day(day, interval);
    if last == LAST_DAY {
        return None;
    }
    Some((last + 1) * DAY_MILLIS)
}

/// The first day of the interval that the day lies in.
fn first_day(day: i64, interval: Interval) -> i64
    requires { IsBetween (negsuc 719_527) (pos 2_932_896) day }
    ensures { IsFirstDay interval day result }
{
    match interval {
        Interval::Day => day,
        Interval::Month => number_of(date_of(day).first_of_month()),
        Interval::Year => number_of(date_of(day).first_of_year()),
    }
}

/// The last day of the interval that the day lies in.
fn last_day(day: i64, interval: Interval) -> i64
    requires { IsBetween (negsuc 719_527) (pos 2_932_896) day }
    ensures { IsLastDay interval day result }
{
    match interval {
        Interval::Day => day,
        Interval::Month => number_of(date_of(day).last_of_month()),
        Interval::Year => number_of(date_of(day).last_of_year()),
    }
}

/// The date with that day number.
fn date_of(day: i64) -> Date
    requires { IsBetween (negsuc 719_527) (pos 2_932_896) day }
    ensures { epoch_day result ≡ day }
{
    Date::from_plain(PlainDate::from_unix_epoch_day(day).unwrap())
}

/// The days from 1970-01-01 to the date.
fn number_of(date: Date) -> i64
    ensures { result ≡ epoch_day date }
{
    date.to_plain().to_unix_epoch_day() as i64
}
