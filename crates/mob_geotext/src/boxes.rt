//! Reads boxes from their texts.
ghost use Rattle.std.specs.Prelude.{◌≡◌, ◌≢◌, option_map, Err, true, IfSome};
ghost use Rattle.mob_language.specs.Readers.{all_of, within_blanks_at};
ghost use Rattle.mob_numeral.specs.declared.fault.ReadText.TheVariants.{NoMemory};
ghost use Rattle.mob_numeral.specs.Verdict.{Lit};
ghost use Rattle.mob_stbox.specs.Areas.{is_area};
ghost use Rattle.mob_geotext.specs.Boxes.{open_bracket_at as open_bracket_in, corner_at as corner_in, corners_at as corners_in, closed_span_at as closed_span_in, space_alone_at as space_alone_in, space_and_time_at as space_and_time_in, time_alone_at as time_alone_in, with_space_at as with_space_in, written_box_at as written_box_in, area_of as area_said, has_corners as corners_there, has_sides as sides_there, box_in_space as in_space, box_in_time as in_time, box_in_both as in_both, sound_box, boxes};

use crate::noted::{NotedSpan, has_ends, noted_span_at, span_of};
use mob_numeral::{any_case_at, blanks, number_value_at, some_blanks_at, spaced_at};
use mob_plane::Point;
use mob_points::{close_bracket_at, point_of};
use mob_scalar::{Epoch, ReadText};
use mob_span::Span;
use mob_stbox::{Area, StBox};

/// Two opposite corners of a rectangle, as read. A corner is `None` if one of its coordinates does
/// not fit.
#[derive(Drop)]
pub struct NotedCorners {
    /// The corner that is written first.
    pub first: Option<Point>,
    /// The other one.
    pub second: Option<Point>,
}

/// A box as read, before it is known that its coordinates and ends fit and that its span has an
/// instant.
#[derive(Drop)]
pub enum NotedBox {
    /// A rectangle.
    Space(NotedCorners),
    /// A span of time.
    Time(NotedSpan),
    /// A rectangle and a span of time.
    Both(NotedCorners, NotedSpan),
}

/// The text after an opening bracket and optional blanks.
#[tactic(auto, unfolding(crate::specs::Boxes::open_bracket_at))]
fn open_bracket_at(bytes: &[u8]) -> Option<&[u8]>
    ensures read { option_map (λ rest. (tt, rest.now)) result ≡ open_bracket_in bytes.now }
{
    match bytes {
        [40, rest @ ..] => Some(blanks(rest).1),
        _ => None,
    }
}

/// Reads a corner at the front. Returns it, if its coordinates fit, and the rest of the text.
#[tactic(auto, unfolding(crate::specs::Boxes::corner_at, mob_scalar::specs::Brackets::comma_at))]
fn corner_at(bytes: &[u8]) -> Option<(Option<Point>, &[u8])>
    ensures read { option_map (λ x. (x.0, x.1.now)) result ≡ corner_in bytes.now }
{
    let rest = open_bracket_at(bytes)?;
    let Some((x, rest)) = number_value_at(rest) else {
        return None;
    };
    let rest = spaced_at(b',', rest)?;
    let Some((y, rest)) = number_value_at(rest) else {
        return None;
    };
    let rest = close_bracket_at(rest)?;
    Some((point_of(x, y), rest))
}

/// Reads two corners and a closing bracket. Returns the corners and the rest of the text.
#[tactic(auto, unfolding(crate::specs::Boxes::corners_at, mob_scalar::specs::Brackets::comma_at))]
fn corners_at(bytes: &[u8]) -> Option<(NotedCorners, &[u8])>
    ensures read { option_map (λ x. (x.0, x.1.now)) result ≡ corners_in bytes.now }
{
    let Some((first, rest)) = corner_at(bytes) else {
        return None;
    };
    let rest = spaced_at(b',', rest)?;
    let Some((second, rest)) = corner_at(rest) else {
        return None;
    };
    let rest = close_bracket_at(rest)?;
    Some((NotedCorners { first, second }, rest))
}

/// Reads a span and a closing bracket. Returns the span and the rest of the text.
#[tactic(auto, unfolding(crate::specs::Boxes::closed_span_at))]
fn closed_span_at<'a>(epoch: &Epoch, bytes: &'a [u8]) -> Option<(NotedSpan, &'a [u8])>
    ensures read { option_map (λ x. (x.0, x.1.now)) result ≡ closed_span_in epoch.now bytes.now }
{
    let Some((span, rest)) = noted_span_at(epoch, bytes) else {
        return None;
    };
    let rest = close_bracket_at(rest)?;
    Some((span, rest))
}

/// Reads the rectangle in brackets after `X`. Returns it and the rest of the text.
#[tactic(auto, unfolding(crate::specs::Boxes::space_alone_at))]
fn space_alone_at(bytes: &[u8]) -> Option<(NotedBox, &[u8])>
    ensures read { option_map (λ x. (x.0, x.1.now)) result ≡ space_alone_in bytes.now }
{
    let rest = spaced_at(b'(', bytes)?;
    let Some((corners, rest)) = corners_at(rest) else {
        return None;
    };
    Some((NotedBox::Space(corners), rest))
}

/// Reads the letter `T` after `X`, and both dimensions in brackets. Returns them and the rest of
/// the text.
#[tactic(auto, unfolding(crate::specs::Boxes::space_and_time_at, mob_scalar::specs::Brackets::comma_at))]
fn space_and_time_at<'a>(epoch: &Epoch, bytes: &'a [u8]) -> Option<(NotedBox, &'a [u8])>
    ensures read { option_map (λ x. (x.0, x.1.now)) result ≡ space_and_time_in epoch.now bytes.now }
{
    let rest = any_case_at(b"t", bytes)?;
    let rest = spaced_at(b'(', rest)?;
    let rest = open_bracket_at(rest)?;
    let Some((corners, rest)) = corners_at(rest) else {
        return None;
    };
    let rest = spaced_at(b',', rest)?;
    let Some((span, rest)) = closed_span_at(epoch, rest) else {
        return None;
    };
    Some((NotedBox::Both(corners, span), rest))
}

/// Reads the letter `T` and a span in brackets. Returns the span and the rest of the text.
#[tactic(auto, unfolding(crate::specs::Boxes::time_alone_at))]
fn time_alone_at<'a>(epoch: &Epoch, bytes: &'a [u8]) -> Option<(NotedBox, &'a [u8])>
    ensures read { option_map (λ x. (x.0, x.1.now)) result ≡ time_alone_in epoch.now bytes.now }
{
    let rest = any_case_at(b"t", bytes)?;
    let rest = spaced_at(b'(', rest)?;
    let Some((span, rest)) = closed_span_at(epoch, rest) else {
        return None;
    };
    Some((NotedBox::Time(span), rest))
}

/// Reads the letter `X` and the rectangle, with or without a span. Returns the box and the rest of
/// the text.
#[tactic(auto, unfolding(crate::specs::Boxes::with_space_at))]
fn with_space_at<'a>(epoch: &Epoch, bytes: &'a [u8]) -> Option<(NotedBox, &'a [u8])>
    ensures read { option_map (λ x. (x.0, x.1.now)) result ≡ with_space_in epoch.now bytes.now }
{
    let rest = any_case_at(b"x", bytes)?;
    if let Some((noted, after)) = space_and_time_at(epoch, rest) {
        return Some((noted, after));
    }
    let Some((noted, after)) = space_alone_at(rest) else {
        return None;
    };
    Some((noted, after))
}

/// Reads a box at the front, as written. Returns it and the rest of the text.
#[tactic(auto, unfolding(crate::specs::Boxes::written_box_at))]
fn written_box_at<'a>(epoch: &Epoch, bytes: &'a [u8]) -> Option<(NotedBox, &'a [u8])>
    ensures read { option_map (λ x. (x.0, x.1.now)) result ≡ written_box_in epoch.now bytes.now }
{
    let rest = any_case_at(b"stbox", bytes)?;
    let (_, rest) = some_blanks_at(rest)?;
    if let Some((noted, after)) = time_alone_at(epoch, rest) {
        return Some((noted, after));
    }
    let Some((noted, after)) = with_space_at(epoch, rest) else {
        return None;
    };
    Some((noted, after))
}

/// Reads all of the bytes as a box with optional blanks at both ends.
fn noted_in_all(epoch: &Epoch, bytes: &[u8]) -> Option<NotedBox>
    ensures value { result ≡ all_of (within_blanks_at (written_box_in epoch.now)) bytes.now }
{
    let Some((noted, rest)) = written_box_at(epoch, blanks(bytes).1) else {
        return None;
    };
    match blanks(rest).1 {
        [] => Some(noted),
        _ => None,
    }
}

/// Whether the coordinates of both corners fit.
fn has_corners(corners: &NotedCorners) -> bool
    ensures value { result ≡ corners_there corners.now }
{
    corners.first.is_some() && corners.second.is_some()
}

/// Whether all coordinates and ends fit.
fn has_sides(noted: &NotedBox) -> bool
    ensures value { result ≡ sides_there noted.now }
{
    match noted {
        NotedBox::Space(corners) => has_corners(corners),
        NotedBox::Time(span) => has_ends(span),
        NotedBox::Both(corners, span) => has_corners(corners) && has_ends(span),
    }
}

/// The rectangle between the corners; `None` if a coordinate does not fit.
fn area_of(corners: NotedCorners) -> Option<Area>
    ensures value { result ≡ area_said corners }
    ensures area { IfSome result (λ a. is_area a ≡ true) }
{
    let NotedCorners { first, second } = corners;
    let one = first?;
    let other = second?;
    Some(Area::between(&one, &other))
}

/// The box with this rectangle; `None` if there is none.
fn box_in_space(area: Option<Area>) -> Option<StBox>
    requires area { IfSome area (λ a. is_area a ≡ true) }
    ensures value { result ≡ in_space area }
{
    StBox::new(Some(area?), None)
}

/// The box with this span; `None` if there is none.
fn box_in_time(span: Option<Span>) -> Option<StBox>
    ensures value { result ≡ in_time span }
{
    StBox::new(None, Some(span?))
}

/// The box with this rectangle and this span; `None` if either is missing.
fn box_in_both(area: Option<Area>, span: Option<Span>) -> Option<StBox>
    requires area { IfSome area (λ a. is_area a ≡ true) }
    ensures value { result ≡ in_both area span }
{
    StBox::new(Some(area?), Some(span?))
}

/// The box; `None` if a coordinate or an end does not fit, or its span has no instant.
fn box_of(noted: NotedBox) -> Option<StBox>
    ensures value { result ≡ sound_box noted }
{
    match noted {
        NotedBox::Space(corners) => box_in_space(area_of(corners)),
        NotedBox::Time(span) => box_in_time(span_of(span)),
        NotedBox::Both(corners, span) => box_in_both(area_of(corners), span_of(span)),
    }
}

/// Reads a box from its text, which has the form of MobilityDB. Instants are in seconds since
/// midnight UTC of the epoch day.
///
/// A box is `STBOX X((x,y),(x,y))`, `STBOX T(span)` or `STBOX XT(((x,y),(x,y)),span)`, in any
/// letter case. The corners may be any two opposite ones. Blanks may be beside each bracket and
/// comma and at both ends, and at least one follows `STBOX`. The faults, in this order: `NotText`
/// for any other text, `TooLarge` if a coordinate or an end has more than 62 bits, and `Unsound` if
/// the span has no instant. It takes no memory.
pub fn read_stbox(text: &str, epoch: &Epoch) -> Result<StBox, ReadText>
    ensures reading { Lit (boxes epoch.now) text.now result }
    ensures memory { result ≢ Err NoMemory }
{
    let noted = match noted_in_all(epoch, text.as_bytes()) {
        None => return Err(ReadText::NotText),
        Some(noted) => noted,
    };
    if !has_sides(&noted) {
        return Err(ReadText::TooLarge);
    }
    match box_of(noted) {
        Some(found) => Ok(found),
        None => Err(ReadText::Unsound),
    }
}
