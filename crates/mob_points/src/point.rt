//! Reads points from their texts.
ghost use Rattle.std.specs.Prelude.{◌≡◌, ◌≢◌, option_map, Option, Some, None, Err};
ghost use Rattle.mob_language.specs.Readers.{all_of, within_blanks_at};
ghost use Rattle.mob_numeral.specs.declared.fault.ReadText.TheVariants.{NoMemory};
ghost use Rattle.mob_numeral.specs.Verdict.{Lit};
ghost use Rattle.mob_points.specs.Points.{point_of as point_made, close_bracket_at as close_bracket_in, coordinates_at as coordinates_in, written_point_at as written_point_in, srid_zero_at as srid_zero_in, point_value_at as point_value_in, points};

use mob_frac::Frac;
use mob_numeral::{
    ReadText, any_case_at, blanks, maybe, number_value_at, some_blanks_at, spaced_at, within_blanks,
};
use mob_plane::Point;

/// The point with these coordinates; `None` if either is missing.
pub fn point_of(x: Option<Frac>, y: Option<Frac>) -> Option<Point>
    ensures value { result ≡ point_made x y }
{
    let east = x?;
    let north = y?;
    Some(Point { x: east, y: north })
}

/// Reads a closing bracket with optional blanks before it. Returns the rest of the text.
#[tactic(auto, unfolding(crate::specs::Points::close_bracket_at))]
pub fn close_bracket_at(bytes: &[u8]) -> Option<&[u8]>
    ensures read { option_map (λ rest. (tt, rest.now)) result ≡ close_bracket_in bytes.now }
{
    match blanks(bytes).1 {
        [41, rest @ ..] => Some(rest),
        _ => None,
    }
}

/// Reads two numbers and a closing bracket. Returns the point, if its coordinates fit, and the rest
/// of the text.
#[tactic(auto, unfolding(crate::specs::Points::coordinates_at))]
fn coordinates_at(bytes: &[u8]) -> Option<(Option<Point>, &[u8])>
    ensures read { option_map (λ x. (x.0, x.1.now)) result ≡ coordinates_in bytes.now }
{
    let Some((x, rest)) = number_value_at(bytes) else {
        return None;
    };
    let (_, rest) = some_blanks_at(rest)?;
    let Some((y, rest)) = number_value_at(rest) else {
        return None;
    };
    let rest = close_bracket_at(rest)?;
    Some((point_of(x, y), rest))
}

/// Reads a point at the front. Returns it, if its coordinates fit, and the rest of the text.
#[tactic(auto, unfolding(crate::specs::Points::written_point_at))]
fn written_point_at(bytes: &[u8]) -> Option<(Option<Point>, &[u8])>
    ensures read { option_map (λ x. (x.0, x.1.now)) result ≡ written_point_in bytes.now }
{
    let rest = any_case_at(b"point", bytes)?;
    let rest = spaced_at(b'(', rest)?;
    let Some((point, rest)) = coordinates_at(rest) else {
        return None;
    };
    Some((point, rest))
}

/// Reads `SRID=0;` at the front. Returns the rest of the text.
#[tactic(auto, unfolding(crate::specs::Points::srid_zero_at))]
pub fn srid_zero_at(bytes: &[u8]) -> Option<((), &[u8])>
    ensures read { option_map (λ x. (x.0, x.1.now)) result ≡ srid_zero_in bytes.now }
{
    let rest = any_case_at(b"srid=0", bytes)?;
    let rest = spaced_at(b';', rest)?;
    Some(((), rest))
}

/// Reads a point at the front, with or without `SRID=0;` before it. Returns the point, if its
/// coordinates fit, and the rest of the text.
#[tactic(auto, unfolding(crate::specs::Points::point_value_at, crate::specs::Points::behind_srid_at))]
pub fn point_value_at(bytes: &[u8]) -> Option<(Option<Point>, &[u8])>
    ensures read { option_map (λ x. (x.0, x.1.now)) result ≡ point_value_in bytes.now }
{
    let (_, rest) = maybe(srid_zero_at(bytes), bytes);
    let Some((point, rest)) = written_point_at(rest) else {
        return None;
    };
    Some((point, rest))
}

/// Reads all of the bytes as a point with optional blanks at both ends.
fn point_in_all(bytes: &[u8]) -> Option<Option<Point>>
    ensures value { result ≡ all_of (within_blanks_at point_value_in) bytes.now }
{
    within_blanks(point_value_at, bytes)
}

/// Reads a point from its text, which has the form of WKT.
///
/// A point is `POINT(x y)`, in any letter case, with two numbers as `read_number` reads them.
/// Blanks may be beside each bracket and at both ends, and at least one is between the numbers.
/// `SRID=0;` may come before it. Any other text is `NotText`. A point with a coordinate of more
/// than 62 bits is `TooLarge`. It takes no memory.
pub fn read_point(text: &str) -> Result<Point, ReadText>
    ensures reading { Lit points text.now result }
    ensures memory { result ≢ Err NoMemory }
{
    match point_in_all(text.as_bytes()) {
        None => Err(ReadText::NotText),
        Some(None) => Err(ReadText::TooLarge),
        Some(Some(point)) => Ok(point),
    }
}
