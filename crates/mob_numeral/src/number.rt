//! Reads numbers from their texts.
ghost use Rattle.std.specs.Prelude.{◌≡◌, ◌<◌, ◌≤◌, ◌^◌, ◌*◌, ◌+◌, option_map, Option, Some, None, ◌≢◌, Err};
ghost use Rattle.mob_language.specs.Readers.{all_of, within_blanks_at};
ghost use Rattle.mob_ratio.specs.Ratio.{over};
ghost use Rattle.mob_frac.specs.Fits.{IsExact};
ghost use Rattle.mob_frac.specs.Signed.{signed};
ghost use Rattle.mob_numeral.specs.NumberValue.{IsBounded, numeral_value, up_of, down_of, value_in};
ghost use Rattle.mob_numeral.specs.Fitting.{fitting, number_value_at as number_value_in};
ghost use Rattle.mob_numeral.specs.Number.{count_of};
ghost use Rattle.mob_numeral.specs.NumberReaders.{numeral_at};
ghost use Rattle.mob_numeral.specs.declared.fault.ReadText.TheVariants.{NoMemory};
ghost use Rattle.mob_numeral.specs.Verdict.{Lit};
ghost use Rattle.mob_numeral.specs.Numbers.{numbers, whole_numbers};

use crate::fault::ReadText;
use crate::numeral::{Exponent, Figures, Numeral, Tail, number_at};
use crate::readers::within_blanks;
use mob_frac::{Frac, Overflow, over_product};

const SIZE: u128 = 1 << 62;

/// Ten to the power `k`.
pub fn ten_to(k: u32) -> u128
    requires fits { k ≤ 36 }
    ensures power { result ≡ 10 ^ k }
{
    10u128.pow(k)
}

/// A whole number followed by `up` zeros.
fn raised(negative: bool, size: u128, up: u32) -> Result<Frac, Overflow>
    requires up { up ≤ 18 }
    ensures exact { IsExact (over (signed negative (size * 10 ^ up)) 1) result }
{
    if size >= SIZE {
        return Err(Overflow);
    }
    over_product(negative, size * ten_to(up), 1, 1)
}

/// A number whose point moves `down` places to the left.
fn lowered(negative: bool, size: u128, down: u32) -> Result<Frac, Overflow>
    requires size { size < 10 ^ 36 }
    requires down { down ≤ 54 }
    ensures exact { IsExact (over (signed negative size) (10 ^ down)) result }
{
    if down > 27 {
        over_product(negative, size, ten_to(27), ten_to(down - 27))
    } else {
        over_product(negative, size, ten_to(down), 1)
    }
}

fn scaled(negative: bool, size: u128, up: u32, down: u32) -> Result<Frac, Overflow>
    requires size { size < 10 ^ 36 }
    requires up { up ≤ 18 }
    requires down { down ≤ 54 }
    ensures exact { IsExact (over (signed negative (size * 10 ^ up)) (10 ^ down)) result }
{
    if up >= down {
        raised(negative, size, up - down)
    } else {
        lowered(negative, size, down - up)
    }
}

fn up(exponent: Option<Exponent>) -> u128
    ensures value { result ≡ up_of exponent }
{
    match exponent {
        None => 0,
        Some(e) => { if e.negative { 0 } else { e.size.value } }
    }
}

fn down(exponent: Option<Exponent>) -> u128
    ensures value { result ≡ down_of exponent }
{
    match exponent {
        None => 0,
        Some(e) => { if e.negative { e.size.value } else { 0 } }
    }
}

fn places(part: Option<Figures>) -> u32
    ensures value { result ≡ count_of part }
{
    match part {
        None => 0,
        Some(f) => f.count,
    }
}

fn part_value(part: Option<Figures>) -> u128
    ensures value { result ≡ value_in part }
{
    match part {
        None => 0,
        Some(f) => f.value,
    }
}

/// The number that a numeral denotes. `Overflow` exactly if the reduced fraction has a part of more
/// than 62 bits.
#[tactic(auto, unfolding(crate::specs::NumberValue::numeral_value))]
pub fn evaluate(n: Numeral) -> Result<Frac, Overflow>
    requires bounded { IsBounded n }
    ensures exact { IsExact (numeral_value n) result }
{
    match n.tail {
        Tail::Over(denominator) => over_product(n.negative, n.digits.value, denominator.value, 1),
        Tail::Decimal(part, exponent) => {
            let size = n.digits.value * ten_to(places(part)) + part_value(part);
            let up = up(exponent) as u32;
            let down = places(part) + down(exponent) as u32;
            scaled(n.negative, size, up, down)
        }
    }
}

/// The number that a numeral denotes; `None` if it does not fit.
#[tactic(auto, unfolding(crate::specs::Fitting::fits))]
fn fitting_number(numeral: Numeral) -> Option<Frac>
    requires bounded { IsBounded numeral }
    ensures value { result ≡ fitting (numeral_value numeral) }
{
    match evaluate(numeral) {
        Ok(value) => Some(value),
        Err(_) => None,
    }
}

/// Reads a number at the front. Returns it, if it fits, and the rest of the text.
#[tactic(auto, unfolding(crate::specs::Fitting::number_value_at))]
pub fn number_value_at(bytes: &[u8]) -> Option<(Option<Frac>, &[u8])>
    ensures read { option_map (λ x. (x.0, x.1.now)) result ≡ number_value_in bytes.now }
{
    match number_at(bytes) {
        Some((numeral, rest)) => Some((fitting_number(numeral), rest)),
        None => None,
    }
}

/// Reads all of the bytes as a numeral with optional blanks at both ends.
fn numeral_of(bytes: &[u8]) -> Option<Numeral>
    ensures value { result ≡ all_of (within_blanks_at numeral_at) bytes.now }
{
    within_blanks(number_at, bytes)
}

/// Reads a number from its text.
///
/// A number is an optional sign, digits with at most one point, and an optional exponent from -18
/// to 18; or an optional sign, digits, `/` and digits that are not all 0. Each run of digits has at
/// most 36; the digits on both sides of a point count as one run. Blanks may be at both ends. Any
/// other text is `NotText`. A number whose reduced fraction has a part of more than 62 bits is
/// `TooLarge`. It takes no memory.
pub fn read_number(text: &str) -> Result<Frac, ReadText>
    ensures reading { Lit numbers text.now result }
    ensures memory { result ≢ Err NoMemory }
{
    match numeral_of(text.as_bytes()) {
        None => Err(ReadText::NotText),
        Some(n) => match evaluate(n) {
            Ok(q) => Ok(q),
            Err(_) => Err(ReadText::TooLarge),
        },
    }
}

/// Reads an int from its text: a number, as `read_number` reads it, with the same faults. A number
/// that is not whole is `Unsound`. It takes no memory.
pub fn read_whole(text: &str) -> Result<Frac, ReadText>
    ensures reading { Lit whole_numbers text.now result }
    ensures memory { result ≢ Err NoMemory }
{
    match read_number(text) {
        Ok(number) => {
            if number.den() == 1 {
                Ok(number)
            } else {
                Err(ReadText::Unsound)
            }
        }
        Err(fault) => Err(fault),
    }
}
