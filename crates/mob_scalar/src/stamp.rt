//! Reads moments as they are written.
ghost use Rattle.std.specs.Prelude.{◌≡◌, ◌<◌, ◌^◌, option_map, ℤ, pos, nat_abs, ◌*ℤ◌, ◌+ℤ◌, Option, Some, None, IfSome, true};
ghost use Rattle.mob_scalar.specs.Calendar.{is_civil as civil};
ghost use Rattle.mob_scalar.specs.Moment.{stamp_of as stamp_made, clock_of as clock_made, offset_of as offset_made, zone_of as zone_made, is_in_years as in_years, seconds, shift as moved};
ghost use Rattle.mob_scalar.specs.MomentReaders.{two_digits_below_at as up_to_in, colon_at as colon_in, decimals_at as decimals_in, below_at as below_in, quotient_at as quotient_in, second_part_at, seconds_at as seconds_in, clock_at as clock_in, z_at as z_in, hours_at as hours_in, after_sign_in, zone_at as zone_in, t_at as t_in, gap_at as gap_in, time_at as time_in, moment_at as moment_in};

use crate::civil::{Civil, date_at, day_of, fixed_at};
use mob_numeral::{Figures, behind, digits_at, maybe, some_blanks_at, ten_to};

/// A part of a second, `numerator / denominator`.
#[derive(Clone, Copy, Debug, PartialEq, Eq)]
pub struct Part {
    /// The numerator, below the denominator.
    pub numerator: u128,
    /// The denominator.
    pub denominator: u128,
}

/// A time of day: whole seconds since midnight, and a part of a second.
#[derive(Clone, Copy, Debug, PartialEq, Eq)]
pub struct Clock {
    /// Whole seconds since midnight.
    pub seconds: u32,
    /// The part of a second.
    pub part: Part,
}

/// An offset from UTC.
#[derive(Clone, Copy, Debug, PartialEq, Eq)]
pub struct Offset {
    /// Whether its sign is a minus.
    pub west: bool,
    /// Its absolute value, in seconds.
    pub seconds: u32,
}

/// A moment as written: a day, a time of that day and the offset.
#[derive(Clone, Copy, Debug, PartialEq, Eq)]
pub struct Stamp {
    /// The day.
    pub date: Civil,
    /// The time of that day.
    pub clock: Clock,
    /// The offset from UTC of that time.
    pub offset: Offset,
}

#[tactic(auto, unfolding(crate::specs::MomentReaders::two_digits_below_at))]
fn two_digits_below_at(limit: u128, bytes: &[u8]) -> Option<(u128, &[u8])>
    ensures value { option_map (λ x. (x.0, x.1.now)) result ≡ up_to_in limit bytes.now }
    ensures bound { IfSome result (λ x. x.0 < 100) }
{
    let (n, rest) = fixed_at(2, bytes)?;
    if n < limit { Some((n, rest)) } else { None }
}

#[tactic(auto, unfolding(crate::specs::MomentReaders::colon_at))]
fn colon_at(bytes: &[u8]) -> Option<(u128, &[u8])>
    ensures value { option_map (λ x. (x.0, x.1.now)) result ≡ colon_in bytes.now }
    ensures bound { IfSome result (λ x. x.0 < 100) }
{
    two_digits_below_at(60, behind(b':', bytes)?)
}

#[tactic(auto, unfolding(crate::specs::MomentReaders::z_at))]
fn z_at(bytes: &[u8]) -> Option<(Offset, &[u8])>
    ensures value { option_map (λ x. (x.0, x.1.now)) result ≡ z_in bytes.now }
{
    match bytes {
        [90, rest @ ..] | [122, rest @ ..] => Some((
            Offset {
                west: false,
                seconds: 0,
            },
            rest,
        )),
        _ => None,
    }
}

#[tactic(auto, unfolding(crate::specs::MomentReaders::t_at))]
fn t_at(bytes: &[u8]) -> Option<((), &[u8])>
    ensures value { option_map (λ x. (x.0, x.1.now)) result ≡ t_in bytes.now }
{
    match bytes {
        [84, rest @ ..] | [116, rest @ ..] => Some(((), rest)),
        _ => None,
    }
}

#[tactic(auto, unfolding(crate::specs::MomentReaders::decimals_at))]
fn decimals_at(bytes: &[u8]) -> Option<(Part, &[u8])>
    ensures value { option_map (λ x. (x.0, x.1.now)) result ≡ decimals_in bytes.now }
{
    let (digits, rest) = digits_at(behind(b'.', bytes)?)?;
    if 1 <= digits.count && digits.count <= 18 {
        let part = Part {
            numerator: digits.value,
            denominator: ten_to(digits.count),
        };
        Some((part, rest))
    } else {
        None
    }
}

#[tactic(auto, unfolding(crate::specs::MomentReaders::below_at))]
fn below_at(bytes: &[u8]) -> Option<(Figures, &[u8])>
    ensures value { option_map (λ x. (x.0, x.1.now)) result ≡ below_in bytes.now }
{
    digits_at(behind(b'/', bytes)?)
}

#[tactic(auto, unfolding(crate::specs::MomentReaders::quotient_at))]
fn quotient_at(bytes: &[u8]) -> Option<(Part, &[u8])>
    ensures value { option_map (λ x. (x.0, x.1.now)) result ≡ quotient_in bytes.now }
{
    let (numerator, rest) = digits_at(behind(b'(', bytes)?)?;
    let (denominator, rest) = below_at(rest)?;
    let rest = behind(b')', rest)?;
    if 1 <= numerator.count && numerator.value < denominator.value {
        let part = Part {
            numerator: numerator.value,
            denominator: denominator.value,
        };
        Some((part, rest))
    } else {
        None
    }
}

#[tactic(auto, unfolding(crate::specs::MomentReaders::second_part_at))]
fn second_part_at(bytes: &[u8]) -> Option<(Part, &[u8])>
    ensures value { option_map (λ x. (x.0, x.1.now)) result ≡ second_part_at bytes.now }
{
    match decimals_at(bytes) {
        Some(found) => Some(found),
        None => quotient_at(bytes),
    }
}

#[tactic(auto, unfolding(crate::specs::MomentReaders::seconds_at))]
fn seconds_at(bytes: &[u8]) -> Option<((u128, Option<Part>), &[u8])>
    ensures value { option_map (λ x. (x.0, x.1.now)) result ≡ seconds_in bytes.now }
    ensures bound { IfSome result (λ x. x.0.0 < 100) }
{
    let (seconds, rest) = two_digits_below_at(60, behind(b':', bytes)?)?;
    let (part, rest) = maybe(second_part_at(rest), rest);
    Some(((seconds, part), rest))
}

fn clock_from(hour: u128, minute: u128, seconds: Option<(u128, Option<Part>)>) -> Clock
    requires hour { hour < 100 }
    requires minute { minute < 100 }
    requires seconds { IfSome seconds (λ x. x.0 < 100) }
    ensures value { result ≡ clock_made (hour, (minute, seconds)) }
{
    let none = Part {
        numerator: 0,
        denominator: 1,
    };
    match seconds {
        None => Clock {
            seconds: (hour * 3600 + minute * 60) as u32,
            part: none,
        },
        Some((second, None)) => Clock {
            seconds: (hour * 3600 + minute * 60 + second) as u32,
            part: none,
        },
        Some((second, Some(part))) => Clock {
            seconds: (hour * 3600 + minute * 60 + second) as u32,
            part,
        },
    }
}

#[tactic(auto, unfolding(crate::specs::MomentReaders::clock_at))]
fn clock_at(bytes: &[u8]) -> Option<(Clock, &[u8])>
    ensures value { option_map (λ x. (x.0, x.1.now)) result ≡ clock_in bytes.now }
{
    let (hour, rest) = two_digits_below_at(24, bytes)?;
    let (minute, rest) = colon_at(rest)?;
    let (seconds, rest) = maybe(seconds_at(rest), rest);
    Some((clock_from(hour, minute, seconds), rest))
}

fn offset_from(sign: u8, hours: u128, minutes: Option<u128>) -> Offset
    requires hours { hours < 100 }
    requires minutes { IfSome minutes (λ n. n < 100) }
    ensures value { result ≡ offset_made (sign, (hours, minutes)) }
{
    let minutes = match minutes {
        None => 0,
        Some(n) => n,
    };
    Offset {
        west: sign == 45,
        seconds: (hours * 3600 + minutes * 60) as u32,
    }
}

fn after_sign(sign: u8, bytes: &[u8]) -> Option<(Offset, &[u8])>
    ensures value { option_map (λ x. (x.0, x.1.now)) result ≡ after_sign_in sign bytes.now }
{
    let (hours, rest) = two_digits_below_at(16, bytes)?;
    let (minutes, rest) = maybe(colon_at(rest), rest);
    Some((offset_from(sign, hours, minutes), rest))
}

#[tactic(auto, unfolding(crate::specs::MomentReaders::hours_at))]
fn hours_at(bytes: &[u8]) -> Option<(Offset, &[u8])>
    ensures value { option_map (λ x. (x.0, x.1.now)) result ≡ hours_in bytes.now }
{
    match bytes {
        [43, rest @ ..] => after_sign(43, rest),
        [45, rest @ ..] => after_sign(45, rest),
        _ => None,
    }
}

#[tactic(auto, unfolding(crate::specs::MomentReaders::zone_at))]
fn zone_at(bytes: &[u8]) -> Option<(Offset, &[u8])>
    ensures value { option_map (λ x. (x.0, x.1.now)) result ≡ zone_in bytes.now }
{
    match z_at(bytes) {
        Some(found) => Some(found),
        None => hours_at(bytes),
    }
}

fn zone_or_utc(zone: Option<Offset>) -> Offset
    ensures value { result ≡ zone_made zone }
{
    match zone {
        None => Offset {
            west: false,
            seconds: 0,
        },
        Some(offset) => offset,
    }
}

#[tactic(auto, unfolding(crate::specs::MomentReaders::gap_at))]
fn gap_at(bytes: &[u8]) -> Option<((), &[u8])>
    ensures value { option_map (λ x. (x.0, x.1.now)) result ≡ gap_in bytes.now }
{
    match some_blanks_at(bytes) {
        Some(found) => Some(found),
        None => t_at(bytes),
    }
}

#[tactic(auto, unfolding(crate::specs::MomentReaders::time_at))]
fn time_at(bytes: &[u8]) -> Option<((Clock, Offset), &[u8])>
    ensures value { option_map (λ x. (x.0, x.1.now)) result ≡ time_in bytes.now }
{
    let (_, rest) = gap_at(bytes)?;
    let (clock, rest) = clock_at(rest)?;
    let (zone, rest) = maybe(zone_at(rest), rest);
    Some(((clock, zone_or_utc(zone)), rest))
}

fn stamp_from(date: Civil, time: Option<(Clock, Offset)>) -> Stamp
    ensures value { result ≡ stamp_made (date, time) }
{
    match time {
        None => Stamp {
            date,
            clock: Clock {
                seconds: 0,
                part: Part {
                    numerator: 0,
                    denominator: 1,
                },
            },
            offset: Offset {
                west: false,
                seconds: 0,
            },
        },
        Some((clock, offset)) => Stamp {
            date,
            clock,
            offset,
        },
    }
}

fn shift(offset: Offset) -> i64
    ensures value { result ≡ moved offset }
    ensures bound { nat_abs result < 2 ^ 32 }
{
    if offset.west {
        offset.seconds as i64
    } else {
        -(offset.seconds as i64)
    }
}

fn day_seconds(day: i32) -> i64
    ensures value { result ≡ day *ℤ pos 86400 }
    ensures bound { nat_abs result < 2 ^ 50 }
{
    day as i64 * 86400
}

fn total(day: i64, clock: u32, shift: i64) -> i64
    requires day { nat_abs day < 2 ^ 50 }
    requires shift { nat_abs shift < 2 ^ 32 }
    ensures value { result ≡ day +ℤ pos clock +ℤ shift }
    ensures bound { nat_abs result < 2 ^ 51 }
{
    day + clock as i64 + shift
}

/// Whole seconds since midnight UTC of 1970-01-01.
#[tactic(auto, unfolding(crate::specs::Moment::seconds))]
pub fn seconds_of(stamp: Stamp) -> i64
    requires there { civil stamp.date ≡ true }
    ensures value { result ≡ seconds stamp }
    ensures bound { nat_abs result < 2 ^ 51 }
{
    total(
        day_seconds(day_of(stamp.date)),
        stamp.clock.seconds,
        shift(stamp.offset),
    )
}

fn is_in_years(stamp: Stamp) -> bool
    requires date { civil stamp.date ≡ true }
    ensures value { result ≡ in_years stamp }
{
    let seconds = seconds_of(stamp);
    -62135596800 <= seconds && seconds <= 253402300799
}

/// Reads a moment at the front, as written. Returns it and the rest of the text.
#[tactic(auto, unfolding(crate::specs::MomentReaders::moment_at))]
pub fn moment_at(bytes: &[u8]) -> Option<(Stamp, &[u8])>
    ensures value { option_map (λ x. (x.0, x.1.now)) result ≡ moment_in bytes.now }
    ensures there { IfSome result (λ x. civil x.0.date ≡ true) }
{
    let (date, rest) = date_at(bytes)?;
    let (time, rest) = maybe(time_at(rest), rest);
    let stamp = stamp_from(date, time);
    if is_in_years(stamp) {
        Some((stamp, rest))
    } else {
        None
    }
}
