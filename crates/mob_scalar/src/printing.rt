//! Prints moments.
ghost use Rattle.std.specs.Prelude.{◌≡◌, ◌+◌, ◌-◌, ◌*◌, ◌/◌, ◌%◌, ◌^◌, ◌<◌, ◌≤◌, ◌++◌, length, replicate, OnOk, OnErr, IsOk, Option, ℤ, pos, nat_abs, unsigned_abs, ◌+ℤ◌, ◌*ℤ◌, string_bytes, string_len, string_capacity, true};
ghost use Rattle.std.specs.Fmt.{decimal};
ghost use Rattle.std.specs.Int.{int_div_euclid, int_rem_euclid};
ghost use Rattle.mob_scalar.specs.Calendar.{IsInYears, is_civil};
ghost use Rattle.mob_scalar.specs.Moment.{is_year_second};
ghost use Rattle.mob_scalar.specs.MomentText.{padded, stamp_text, date_text, clock_text, places as places_of, part_text, quotient_text, decimals_text, second_text, far_text, moment_text, whole_seconds, part_numerator};
ghost use Rattle.mob_numeral.specs.NumberText.{number_text};

use crate::civil::{Civil, date_of};
use crate::epoch::Epoch;
use itoa::Buffer;
use mob_frac::Frac;
use mob_numeral::ten_to;
use std::alloc::AllocError;

// The greatest length of the text of a number or a moment, in bytes.
const MOST: usize = 64;

// The powers of ten from 1 to a million, each at the position of its exponent.
const POWERS: [u64; 7] = [1, 10, 100, 1000, 10000, 100000, 1000000];

fn zeros(count: usize) -> &'static str
    requires count { count ≤ 5 }
    ensures text { result.now ≡ replicate count 48 }
    ensures len { length result.now ≡ count }
{
    match count {
        0 => "",
        1 => "0",
        2 => "00",
        3 => "000",
        4 => "0000",
        _ => "00000",
    }
}

#[tactic(auto, unfolding(crate::specs::MomentText::padded))]
fn push_padded(width: usize, n: u64, into: &mut String) -> Result<(), AllocError>
    requires some { 1 ≤ width }
    requires most { width ≤ 6 }
    requires fits { n < 10 ^ width }
    ensures ok { OnOk result (string_bytes into.new ≡ string_bytes into.old ++ padded width n) }
    ensures len { OnOk result (string_len into.new ≡ string_len into.old + width) }
    ensures room { string_len into.old + width ≤ string_capacity into.old → IsOk result }
    ensures capacity { string_capacity into.old ≤ string_capacity into.new }
{
    let mut buffer = Buffer::new();
    let digits = buffer.format(n);
    into.push_str(zeros(width - digits.len()))?;
    into.push_str(digits)
}

#[tactic(auto, unfolding(crate::specs::MomentText::date_text))]
fn push_date(date: Civil, into: &mut String) -> Result<(), AllocError>
    requires there { is_civil date ≡ true }
    ensures ok { OnOk result (string_bytes into.new ≡ string_bytes into.old ++ date_text date) }
    ensures len { OnOk result (string_len into.new ≡ string_len into.old + 10) }
    ensures room { string_len into.old + 10 ≤ string_capacity into.old → IsOk result }
    ensures capacity { string_capacity into.old ≤ string_capacity into.new }
{
    push_padded(4, date.year as u64, into)?;
    into.push_str("-")?;
    push_padded(2, date.month as u64, into)?;
    into.push_str("-")?;
    push_padded(2, date.day as u64, into)
}

#[tactic(auto, unfolding(crate::specs::MomentText::clock_text))]
fn push_clock(seconds: u64, into: &mut String) -> Result<(), AllocError>
    requires seconds { seconds < 86400 }
    ensures ok { OnOk result (string_bytes into.new ≡ string_bytes into.old ++ clock_text seconds) }
    ensures len { OnOk result (string_len into.new ≡ string_len into.old + 8) }
    ensures room { string_len into.old + 8 ≤ string_capacity into.old → IsOk result }
    ensures capacity { string_capacity into.old ≤ string_capacity into.new }
{
    push_padded(2, seconds / 3600, into)?;
    into.push_str(":")?;
    push_padded(2, seconds / 60 % 60, into)?;
    into.push_str(":")?;
    push_padded(2, seconds % 60, into)
}

// The number of decimal digits, at most 6, that are exact for a fraction with this denominator.
#[tactic(auto, unfolding(crate::specs::MomentText::places))]
fn places(denominator: u64) -> Option<usize>
    requires positive { 0 < denominator }
    ensures value { result ≡ places_of denominator }
{
    POWERS.iter().position(|power| *power % denominator == 0)
}

#[tactic(auto, unfolding(crate::specs::MomentText::part_text))]
fn push_part(numerator: u64, denominator: u64, into: &mut String) -> Result<(), AllocError>
    requires below { numerator < denominator }
    requires fits { denominator < 2 ^ 62 }
    ensures ok { OnOk result (string_bytes into.new ≡ string_bytes into.old ++ part_text numerator denominator) }
    ensures len { OnOk result (string_len into.new ≤ string_len into.old + 41) }
    ensures room { string_len into.old + 41 ≤ string_capacity into.old → IsOk result }
    ensures capacity { string_capacity into.old ≤ string_capacity into.new }
{
    match places(denominator) {
        None => push_quotient(numerator, denominator, into),
        Some(0) => Ok(()),
        Some(digits) => push_decimals(digits, numerator, denominator, into),
    }
}

#[tactic(auto, unfolding(crate::specs::MomentText::quotient_text))]
fn push_quotient(numerator: u64, denominator: u64, into: &mut String) -> Result<(), AllocError>
    requires below { numerator < denominator }
    requires fits { denominator < 2 ^ 62 }
    ensures ok { OnOk result (string_bytes into.new ≡ string_bytes into.old ++ quotient_text numerator denominator) }
    ensures len { OnOk result (string_len into.new ≤ string_len into.old + 41) }
    ensures room { string_len into.old + 41 ≤ string_capacity into.old → IsOk result }
    ensures capacity { string_capacity into.old ≤ string_capacity into.new }
{
    into.push_str("(")?;
    push_whole(numerator, into)?;
    into.push_str("/")?;
    push_whole(denominator, into)?;
    into.push_str(")")
}

fn push_whole(n: u64, into: &mut String) -> Result<(), AllocError>
    requires fits { n < 2 ^ 62 }
    ensures ok { OnOk result (string_bytes into.new ≡ string_bytes into.old ++ decimal n) }
    ensures len { OnOk result (string_len into.new ≤ string_len into.old + 19) }
    ensures room { string_len into.old + 19 ≤ string_capacity into.old → IsOk result }
    ensures capacity { string_capacity into.old ≤ string_capacity into.new }
{
    let mut buffer = Buffer::new();
    into.push_str(buffer.format(n))
}

#[tactic(auto, unfolding(crate::specs::MomentText::decimals_text))]
fn push_decimals(
    digits: usize,
    numerator: u64,
    denominator: u64,
    into: &mut String,
) -> Result<(), AllocError>
    requires some { 1 ≤ digits }
    requires most { digits ≤ 6 }
    requires below { numerator < denominator }
    requires covers { denominator ≤ 10 ^ digits }
    ensures ok { OnOk result (string_bytes into.new ≡ string_bytes into.old ++ decimals_text digits numerator denominator) }
    ensures len { OnOk result (string_len into.new ≤ string_len into.old + 7) }
    ensures room { string_len into.old + 7 ≤ string_capacity into.old → IsOk result }
    ensures capacity { string_capacity into.old ≤ string_capacity into.new }
{
    into.push_str(".")?;
    push_padded(
        digits,
        numerator * ten_to(digits as u32) as u64 / denominator,
        into,
    )
}

#[tactic(auto, unfolding(crate::specs::MomentText::stamp_text))]
fn push_stamp(
    date: Civil,
    clock: u64,
    numerator: u64,
    denominator: u64,
    into: &mut String,
) -> Result<(), AllocError>
    requires there { is_civil date ≡ true }
    requires clock { clock < 86400 }
    requires below { numerator < denominator }
    requires fits { denominator < 2 ^ 62 }
    ensures ok { OnOk result (string_bytes into.new ≡ string_bytes into.old ++ stamp_text date clock numerator denominator) }
    ensures room { string_len into.old + 63 ≤ string_capacity into.old → IsOk result }
{
    push_date(date, into)?;
    into.push_str(" ")?;
    push_clock(clock, into)?;
    push_part(numerator, denominator, into)?;
    into.push_str("+00")
}

#[tactic(auto, unfolding(crate::specs::MomentText::second_text))]
fn push_second(
    second: i64,
    numerator: u64,
    denominator: u64,
    into: &mut String,
) -> Result<(), AllocError>
    requires years { is_year_second second ≡ true }
    requires below { numerator < denominator }
    requires fits { denominator < 2 ^ 62 }
    ensures ok { OnOk result (string_bytes into.new ≡ string_bytes into.old ++ second_text second numerator denominator) }
    ensures room { string_len into.old + 63 ≤ string_capacity into.old → IsOk result }
{
    let date = date_of(day_of_second(second));
    push_stamp(date, clock_of_second(second), numerator, denominator, into)
}

#[tactic(auto, unfolding(mob_numeral::specs::NumberText::number_text))]
fn push_number(n: &Frac, into: &mut String) -> Result<(), AllocError>
    ensures ok { OnOk result (string_bytes into.new ≡ string_bytes into.old ++ number_text n.now) }
    ensures len { OnOk result (string_len into.new ≤ string_len into.old + 40) }
    ensures room { string_len into.old + 40 ≤ string_capacity into.old → IsOk result }
    ensures capacity { string_capacity into.old ≤ string_capacity into.new }
{
    let num = n.num();
    let mut buffer = Buffer::new();
    into.push_str(buffer.format(num))?;
    if n.den() == 1 {
        return Ok(());
    }
    into.push_str("/")?;
    push_whole(denominator_of(n), into)
}

#[tactic(auto, unfolding(crate::specs::MomentText::far_text))]
fn push_far(t: &Frac, into: &mut String) -> Result<(), AllocError>
    ensures ok { OnOk result (string_bytes into.new ≡ string_bytes into.old ++ far_text t.now) }
    ensures room { string_len into.old + 48 ≤ string_capacity into.old → IsOk result }
{
    into.push_str("epoch+(")?;
    push_number(t, into)?;
    into.push_str(")")
}

// The greatest whole number of seconds that is not above the instant.
fn whole_part(t: &Frac) -> i64
    ensures value { result ≡ whole_seconds t.now }
    ensures bound { nat_abs result < 2 ^ 62 }
{
    t.num().div_euclid(t.den())
}

// The numerator of the part of a second beyond that.
fn numerator_of(t: &Frac) -> u64
    ensures value { result ≡ part_numerator t.now }
    ensures below { result < t.now.den }
{
    t.num().rem_euclid(t.den()) as u64
}

fn denominator_of(t: &Frac) -> u64
    ensures value { result ≡ t.now.den }
    ensures fits { result < 2 ^ 62 }
{
    t.den() as u64
}

fn second_of(t: &Frac, epoch: &Epoch) -> i64
    ensures value { result ≡ whole_seconds t.now +ℤ epoch.now *ℤ pos 86400 }
{
    whole_part(t) + epoch.start()
}

fn day_of_second(second: i64) -> i64
    requires year { is_year_second second ≡ true }
    ensures value { result ≡ int_div_euclid second (pos 86400) }
    ensures years { IsInYears result }
{
    second.div_euclid(86400)
}

fn clock_of_second(second: i64) -> u64
    ensures value { result ≡ unsigned_abs (int_rem_euclid second (pos 86400)) }
    ensures below { result < 86400 }
{
    second.rem_euclid(86400) as u64
}

fn is_in_years(second: i64) -> bool
    ensures value { result ≡ is_year_second second }
{
    -62135596800 <= second && second <= 253402300799
}

/// Appends the text of the instant `t`, in seconds since midnight UTC of the epoch day: `YYYY-MM-DD
/// HH:MM:SS`, the part of a second, and `+00`; or `epoch+(n)` with the seconds if it is outside the
/// years 0001 to 9999. An error means that an allocation failed; the text is then unchanged.
#[tactic(auto, unfolding(crate::specs::MomentText::moment_text))]
pub fn write_moment(t: &Frac, epoch: &Epoch, into: &mut String) -> Result<(), AllocError>
    ensures ok { OnOk result (string_bytes into.new ≡ string_bytes into.old ++ moment_text epoch.now t.now) }
    ensures err { OnErr result (string_bytes into.new ≡ string_bytes into.old) }
{
    into.reserve(MOST)?;
    let second = second_of(t, epoch);
    if is_in_years(second) {
        push_second(second, numerator_of(t), denominator_of(t), into)
    } else {
        push_far(t, into)
    }
}
