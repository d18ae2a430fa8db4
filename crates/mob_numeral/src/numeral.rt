//! Reads numbers as they are written.
ghost use Rattle.std.specs.Prelude.{◌≡◌, ◌<◌, ◌≤◌, ◌^◌, length, option_map, Option, Some, IfSome};
ghost use Rattle.std.specs.Str.Parse.{digits_value};
ghost use Rattle.mob_language.specs.Language.{is_digit as digit};
ghost use Rattle.mob_language.specs.Readers.{split_while};
ghost use Rattle.mob_numeral.specs.Figures.{AreFigures};
ghost use Rattle.mob_numeral.specs.Number.{has_digits as has_enough};
ghost use Rattle.mob_numeral.specs.NumberReaders.{digits_at as digits_in, sign_at as sign_in, point_at as point_in, power_at as power_in, exponent_at as exponent_in, over_at as over_in, decimal_at as decimal_in, tail_at as tail_in, numeral_at};

use crate::readers::{behind, maybe, split_while};

/// A run of digits: its value and its length.
#[derive(Clone, Copy, Debug, PartialEq, Eq)]
pub struct Figures {
    /// The value of the digits.
    pub value: u128,
    /// The number of digits.
    pub count: u32,
}

/// An exponent: its sign and its digits.
#[derive(Clone, Copy, Debug, PartialEq, Eq)]
pub struct Exponent {
    /// Whether a minus is before the digits.
    pub negative: bool,
    /// The digits.
    pub size: Figures,
}

/// The part after the first digits.
#[derive(Clone, Copy, Debug, PartialEq, Eq)]
pub enum Tail {
    /// A slash and the digits of the denominator.
    Over(Figures),
    /// The digits after a point, if there is one, and the exponent, if there is one.
    Decimal(Option<Figures>, Option<Exponent>),
}

/// A number as written.
#[derive(Clone, Copy, Debug, PartialEq, Eq)]
pub struct Numeral {
    /// Whether a minus is at the front.
    pub negative: bool,
    /// The first digits, before a point or a slash.
    pub digits: Figures,
    /// The part after them.
    pub tail: Tail,
}

fn is_digit(c: u8) -> bool
    ensures value { result ≡ digit c }
{
    48 <= c && c <= 57
}

/// Splits the text into the digits at the front and the rest.
fn split_digits(bytes: &[u8]) -> (&[u8], &[u8])
    ensures value { (result.0.now, result.1.now) ≡ split_while digit bytes.now }
{
    split_while(is_digit, bytes)
}

/// The value of the digits.
fn value_of(digits: &[u8]) -> u128
    requires short { length digits.now ≤ 36 }
    requires all { AreFigures digits.now }
    ensures value { result ≡ digits_value 10 digits.now }
    ensures bound { result < 10 ^ length digits.now }
{
    let mut value: u128 = 0;
    for c in digits {
        value = value * 10 + (*c - 48) as u128;
    }
    value
}

/// Reads the digits at the front, at most 36. Returns them and the rest of the text.
#[tactic(auto, unfolding(crate::specs::NumberReaders::digits_at))]
pub fn digits_at(bytes: &[u8]) -> Option<(Figures, &[u8])>
    ensures value { option_map (λ x. (x.0, x.1.now)) result ≡ digits_in bytes.now }
    ensures bound { IfSome result (λ x. x.0.count ≤ 36) }
    ensures small { IfSome result (λ x. x.0.value < 10 ^ x.0.count) }
{
    let (digits, rest) = split_digits(bytes);
    if digits.len() > 36 {
        return None;
    }
    let size = Figures {
        value: value_of(digits),
        count: digits.len() as u32,
    };
    Some((size, rest))
}

#[tactic(auto, unfolding(crate::specs::NumberReaders::sign_at))]
fn sign_at(bytes: &[u8]) -> Option<(bool, &[u8])>
    ensures value { option_map (λ x. (x.0, x.1.now)) result ≡ sign_in bytes.now }
{
    match bytes {
        [43, rest @ ..] => Some((false, rest)),
        [45, rest @ ..] => Some((true, rest)),
        _ => Some((false, bytes)),
    }
}

#[tactic(auto, unfolding(crate::specs::NumberReaders::point_at))]
fn point_at(bytes: &[u8]) -> Option<(Figures, &[u8])>
    ensures value { option_map (λ x. (x.0, x.1.now)) result ≡ point_in bytes.now }
{
    digits_at(behind(b'.', bytes)?)
}

#[tactic(auto, unfolding(crate::specs::NumberReaders::exponent_at))]
fn exponent_at(bytes: &[u8]) -> Option<(Exponent, &[u8])>
    ensures value { option_map (λ x. (x.0, x.1.now)) result ≡ exponent_in bytes.now }
{
    match bytes {
        [101, rest @ ..] | [69, rest @ ..] => power_at(rest),
        _ => None,
    }
}

#[tactic(auto, unfolding(crate::specs::NumberReaders::power_at))]
fn power_at(bytes: &[u8]) -> Option<(Exponent, &[u8])>
    ensures value { option_map (λ x. (x.0, x.1.now)) result ≡ power_in bytes.now }
{
    let (negative, rest) = sign_at(bytes)?;
    let (size, rest) = digits_at(rest)?;
    if 0 < size.count && size.value <= 18 {
        Some((Exponent { negative, size }, rest))
    } else {
        None
    }
}

#[tactic(auto, unfolding(crate::specs::NumberReaders::over_at))]
fn over_at(bytes: &[u8]) -> Option<(Tail, &[u8])>
    ensures value { option_map (λ x. (x.0, x.1.now)) result ≡ over_in bytes.now }
{
    let (denominator, rest) = digits_at(behind(b'/', bytes)?)?;
    Some((Tail::Over(denominator), rest))
}

#[tactic(auto, unfolding(crate::specs::NumberReaders::decimal_at))]
fn decimal_at(bytes: &[u8]) -> Option<(Tail, &[u8])>
    ensures value { option_map (λ x. (x.0, x.1.now)) result ≡ decimal_in bytes.now }
{
    let (part, rest) = maybe(point_at(bytes), bytes);
    let (exponent, rest) = maybe(exponent_at(rest), rest);
    Some((Tail::Decimal(part, exponent), rest))
}

#[tactic(auto, unfolding(crate::specs::NumberReaders::tail_at))]
fn tail_at(bytes: &[u8]) -> Option<(Tail, &[u8])>
    ensures value { option_map (λ x. (x.0, x.1.now)) result ≡ tail_in bytes.now }
{
    match over_at(bytes) {
        Some(found) => Some(found),
        None => decimal_at(bytes),
    }
}

fn has_digits(whole: Figures, tail: Tail) -> bool
    requires count { whole.count ≤ 36 }
    ensures value { result ≡ has_enough whole tail }
{
    match tail {
        Tail::Over(denominator) => 0 < whole.count && 0 < denominator.value,
        Tail::Decimal(None, _) => 0 < whole.count,
        Tail::Decimal(Some(part), _) => {
            part.count <= 36 && 0 < whole.count + part.count && whole.count + part.count <= 36
        }
    }
}

/// Reads a number at the front, as written. Returns it and the rest of the text.
#[tactic(auto, unfolding(crate::specs::NumberReaders::numeral_at))]
pub fn number_at(bytes: &[u8]) -> Option<(Numeral, &[u8])>
    ensures value { option_map (λ x. (x.0, x.1.now)) result ≡ numeral_at bytes.now }
{
    let (negative, rest) = sign_at(bytes)?;
    let (digits, rest) = digits_at(rest)?;
    let (tail, rest) = tail_at(rest)?;
    if has_digits(digits, tail) {
        Some((
            Numeral {
                negative,
                digits,
                tail,
            },
            rest,
        ))
    } else {
        None
    }
}
