//! Dates of the calendar, from the year 0001 to 9999.
ghost use Rattle.std.specs.Prelude.{◌≡◌, ◌<◌, ◌^◌, option_map, Option, Some, None, IfSome, true};
ghost use Rattle.mob_language.specs.Readers.{all_of};
ghost use Rattle.mob_scalar.specs.Calendar.{is_civil as civil, day_of as day_number, date_of as date_of_day, IsInYears};
ghost use Rattle.mob_scalar.specs.CalendarReaders.{fixed_at as fixed_in, dash_at as dash_in, date_at as date_in};

use jiff_core::civil::Date;
use mob_numeral::{Figures, behind, digits_at};

/// A date of the calendar.
#[derive(Clone, Copy, Debug, PartialEq, Eq)]
pub struct Civil {
    /// The year, from 1 to 9999 in a valid date.
    pub year: u32,
    /// The month, from 1 to 12 in a valid date.
    pub month: u32,
    /// The day of the month, from 1.
    pub day: u32,
}

/// Reads exactly `count` digits. Returns their number and the rest of the text.
#[tactic(auto, unfolding(crate::specs::CalendarReaders::fixed_at))]
pub fn fixed_at(count: u32, bytes: &[u8]) -> Option<(u128, &[u8])>
    ensures value { option_map (λ x. (x.0, x.1.now)) result ≡ fixed_in count bytes.now }
    ensures bound { IfSome result (λ x. x.0 < 10 ^ count) }
{
    let (digits, rest) = digits_at(bytes)?;
    if digits.count == count {
        Some((digits.value, rest))
    } else {
        None
    }
}

#[tactic(auto, unfolding(crate::specs::CalendarReaders::dash_at))]
fn dash_at(bytes: &[u8]) -> Option<(u128, &[u8])>
    ensures value { option_map (λ x. (x.0, x.1.now)) result ≡ dash_in bytes.now }
    ensures bound { IfSome result (λ x. x.0 < 100) }
{
    fixed_at(2, behind(b'-', bytes)?)
}

/// Whether the date exists in the calendar, in the years 0001 to 9999.
fn is_civil(date: Civil) -> bool
    requires year { date.year < 10000 }
    requires month { date.month < 100 }
    requires day { date.day < 100 }
    ensures test { result ≡ civil date }
{
    if date.year == 0 {
        return false;
    }
    Date::new(date.year as i16, date.month as i8, date.day as i8).is_ok()
}

/// Reads a date `YYYY-MM-DD` that exists. Returns it and the rest of the text.
#[tactic(auto, unfolding(crate::specs::CalendarReaders::date_at))]
pub fn date_at(bytes: &[u8]) -> Option<(Civil, &[u8])>
    ensures value { option_map (λ x. (x.0, x.1.now)) result ≡ date_in bytes.now }
    ensures there { IfSome result (λ x. civil x.0 ≡ true) }
{
    let (year, rest) = fixed_at(4, bytes)?;
    let (month, rest) = dash_at(rest)?;
    let (day, rest) = dash_at(rest)?;
    let date = Civil {
        year: year as u32,
        month: month as u32,
        day: day as u32,
    };
    if is_civil(date) {
        Some((date, rest))
    } else {
        None
    }
}

/// The number of a date's day; 1970-01-01 is 0.
pub fn day_of(date: Civil) -> i32
    requires there { civil date ≡ true }
    ensures number { result ≡ day_number date }
{
    match Date::new(date.year as i16, date.month as i8, date.day as i8) {
        Ok(day) => day.to_unix_epoch_day(),
        Err(_) => 0,
    }
}

/// Reads all of the bytes as a date.
pub fn date_in_all(bytes: &[u8]) -> Option<Civil>
    ensures value { result ≡ all_of date_in bytes.now }
    ensures there { IfSome result (λ date. civil date ≡ true) }
{
    match date_at(bytes) {
        Some((date, rest)) => { if rest.is_empty() { Some(date) } else { None } }
        None => None,
    }
}

/// The date of the day with this number; 1970-01-01 is 0.
pub fn date_of(day: i64) -> Civil
    requires years { IsInYears day }
    ensures value { result ≡ date_of_day day }
    ensures there { civil result ≡ true }
{
    match Date::from_unix_epoch_day(day) {
        Ok(date) => Civil {
            year: date.year as u32,
            month: date.month as u32,
            day: date.day as u32,
        },
        Err(_) => Civil {
            year: 1,
            month: 1,
            day: 1,
        },
    }
}
