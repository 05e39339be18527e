//! The two forms of a date text, and the moment that such a text names.
ghost use Rattle.std.specs.Prelude.{◌≡◌, ◌^◌, ◌<◌, ◌≤◌, length, take, slice_range, IsTrue, IfSome};
ghost use Rattle.jiff_core.specs.Calendar.{IsWithin, IsEpochDay};
ghost use Rattle.std.specs.Str.Parse.{digits_value, AllDigits};
ghost use Rattle.date_fields.specs.Moment.{suits, has_format, date_format, time_format, day_number, midnight, time_of_day, moment_at, moment};

use jiff::civil::Date;

const DAY_MILLIS: i64 = 86_400_000;

/// The milliseconds since 1970-01-01T00:00:00Z of a date text, negative before that moment.
///
/// The text is `YYYY-MM-DD`, the midnight in UTC with which that date begins, or
/// `YYYY-MM-DDTHH:MM:SSZ` or `YYYY-MM-DDTHH:MM:SS.sssZ` (RFC 3339, section 5.6, of which these are a
/// part: offsets, lower case and other fractions are left out). `None` exactly where the text has
/// another form, or the date or the time doesn't exist. There are no leap seconds.
pub fn millis(text: &str) -> Option<i64>
    ensures { result ≡ moment text.now }
{
    let text = text.as_bytes();
    if has_format(text, b"0000-00-00") {
        midnight(text)
    } else if has_format(text, b"0000-00-00T00:00:00Z") {
        moment_at(text, 0)
    } else if has_format(text, b"0000-00-00T00:00:00.000Z") {
        moment_at(text, number(&text[20..23]))
    } else {
        None
    }
}

/// The moment so many milliseconds after the date and time with which the text begins.
#[tactic(auto, using(crate::proofs::Formats::long_enough))]
fn moment_at(text: &[u8], millis: u32) -> Option<i64>
    requires date { IsTrue (has_format date_format (take 10 text.now)) }
    requires time { IsTrue (has_format time_format (slice_range text.now 11 19)) }
    requires fraction { millis < 1_000 }
    ensures { result ≡ moment_at (midnight (take 10 text.now)) (time_of_day (slice_range text.now 11 19)) millis }
{
    let day = midnight(&text[..10])?;
    let time = time_of_day(&text[11..19])?;
    Some(day + (time + millis) as i64)
}

/// Whether the text is as long as the format and suits it at each place.
#[tactic(auto, unfolding(crate::specs::Moment::has_format), using(crate::proofs::Formats::unequal_lengths))]
fn has_format(text: &[u8], format: &[u8]) -> bool
    ensures { result ≡ has_format format.now text.now }
{
    if text.len() != format.len() {
        return false;
    }
    for (place, byte) in text.iter().enumerate() {
        if !suits(format[place], *byte) {
            return false;
        }
    }
    true
}

/// Whether a text may have the byte where its format has the mark: a digit where that is `0`.
fn suits(mark: u8, byte: u8) -> bool
    ensures { result ≡ suits mark byte }
{
    if mark == b'0' {
        byte.is_ascii_digit()
    } else {
        byte == mark
    }
}

/// The number that at most four decimal digits write.
fn number(digits: &[u8]) -> u32
    requires digits { AllDigits 10 digits.now }
    requires short { length digits.now ≤ 4 }
    ensures value { result ≡ digits_value 10 digits.now }
    ensures bound { result < 10 ^ length digits.now }
{
    let mut number = 0;
    for digit in digits {
        number = number * 10 + (*digit - b'0') as u32;
    }
    number
}

/// The moment at which the date `YYYY-MM-DD` begins in UTC, if the calendar has that date.
#[tactic(auto, unfolding(crate::specs::Moment::midnight), using(crate::proofs::Formats::date_fields))]
fn midnight(date: &[u8]) -> Option<i64>
    requires { IsTrue (has_format date_format date.now) }
    ensures value { result ≡ midnight date.now }
    ensures bound { IfSome result (IsWithin (2 ^ 62)) }
{
    let year = number(&date[..4]);
    let month = number(&date[5..7]);
    let day = day_number(year, month, number(&date[8..10]))?;
    Some(day as i64 * DAY_MILLIS)
}

/// The days from 1970-01-01 to the date, if the calendar has it.
fn day_number(year: u32, month: u32, day: u32) -> Option<i32>
    requires year { year < 10_000 }
    requires month { month < 100 }
    requires day { day < 100 }
    ensures value { result ≡ day_number year month day }
    ensures bound { IfSome result IsEpochDay }
{
    let date = Date::new(year as i16, month as i8, day as i8).ok()?;
    Some(date.to_plain().to_unix_epoch_day())
}

/// The milliseconds from midnight to the time `HH:MM:SS`, if a clock shows it.
#[tactic(auto, unfolding(crate::specs::Moment::time_of_day), using(crate::proofs::Formats::time_fields))]
fn time_of_day(time: &[u8]) -> Option<u32>
    requires { IsTrue (has_format time_format time.now) }
    ensures value { result ≡ time_of_day time.now }
    ensures bound { IfSome result (λ n. n < 86_400_000) }
{
    let hour = number(&time[..2]);
    let minute = number(&time[3..5]);
    let second = number(&time[6..8]);
    if hour > 23 || minute > 59 || second > 59 {
        return None;
    }
    Some(((hour * 60 + minute) * 60 + second) * 1_000)
}
