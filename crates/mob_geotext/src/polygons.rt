//! Reads polygons from their texts.
ghost use Rattle.std.specs.Prelude.{◌≡◌, [], option_map, Option, IfOk};
ghost use Rattle.mob_language.specs.Readers.{all_of, within_blanks_at, separated_at as separated_in};
ghost use Rattle.mob_numeral.specs.Verdict.{Lit};
ghost use Rattle.mob_scalar.specs.Brackets.{comma_at as comma_in};
ghost use Rattle.mob_scalar.specs.Traverse.{traverse};
ghost use Rattle.mob_points.specs.Points.{behind_srid_at};
ghost use Rattle.mob_plane.specs.Rings.{rings_of};
ghost use Rattle.mob_geotext.specs.Polygons.{vertex_at as vertex_in, bracketed_at as bracketed_in, written_ring_at as written_ring_in, written_polygon_at as written_polygon_in, polygon_value_at as polygon_value_in, has_many_points as many_points, rings_said, polygons};

use mob_list::items::Items;
use mob_numeral::{any_case_at, blanks, maybe, number_value_at, some_blanks_at};
use mob_plane::{Point, Polygon};
use mob_points::{point_of, srid_zero_at};
use mob_scalar::{ReadText, separated_at};
use std::alloc::{AllocError, Global};

/// Reads two numbers. Returns their point, if both fit, and the rest of the text.
#[tactic(auto, unfolding(crate::specs::Polygons::vertex_at))]
fn vertex_at(bytes: &[u8]) -> Option<(Option<Point>, &[u8])>
    ensures read { option_map (λ x. (x.0, x.1.now)) result ≡ vertex_in bytes.now }
{
    let Some((x, rest)) = number_value_at(bytes) else {
        return None;
    };
    let (_, rest) = some_blanks_at(rest)?;
    let Some((y, rest)) = number_value_at(rest) else {
        return None;
    };
    Some((point_of(x, y), rest))
}

/// Reads points with commas between them. Returns them and the rest of the text.
fn vertices_at<'a>(
    alloc: Global,
    bytes: &'a [u8],
) -> Result<Option<(Vec<Option<Point>>, &'a [u8])>, AllocError>
    ensures read { IfOk result (λ o. option_map (λ x. (x.0.items, x.1.now)) o ≡ separated_in vertex_in comma_in bytes.now) }
{
    separated_at(alloc, |rest| Ok(vertex_at(rest)), bytes)
}

/// Reads a ring at the front. Returns it and the rest of the text.
#[tactic(auto, unfolding(crate::specs::Polygons::bracketed_at))]
fn ring_at<'a>(
    alloc: Global,
    bytes: &'a [u8],
) -> Result<Option<(Items<Option<Point>>, &'a [u8])>, AllocError>
    ensures read { IfOk result (λ o. option_map (λ x. (x.0, x.1.now)) o ≡ written_ring_in bytes.now) }
{
    let [40, rest @ ..] = bytes else {
        return Ok(None);
    };
    let Some((points, rest)) = vertices_at(alloc, blanks(rest).1)? else {
        return Ok(None);
    };
    match blanks(rest).1 {
        [41, rest @ ..] => Ok(Some((Items::from_vec(points), rest))),
        _ => Ok(None),
    }
}

/// Reads rings with commas between them. Returns them and the rest of the text.
fn listed_rings_at<'a>(
    alloc: Global,
    bytes: &'a [u8],
) -> Result<Option<(Vec<Items<Option<Point>>>, &'a [u8])>, AllocError>
    ensures read { IfOk result (λ o. option_map (λ x. (x.0.items, x.1.now)) o ≡ separated_in written_ring_in comma_in bytes.now) }
{
    separated_at(alloc, |rest| ring_at(alloc, rest), bytes)
}

/// Reads rings in brackets. Returns them and the rest of the text.
#[tactic(auto, unfolding(crate::specs::Polygons::bracketed_at))]
fn rings_at<'a>(
    alloc: Global,
    bytes: &'a [u8],
) -> Result<Option<(Vec<Items<Option<Point>>>, &'a [u8])>, AllocError>
    ensures read { IfOk result (λ o. option_map (λ x. (x.0.items, x.1.now)) o ≡ bracketed_in written_ring_in bytes.now) }
{
    let [40, rest @ ..] = bytes else {
        return Ok(None);
    };
    let Some((rings, rest)) = listed_rings_at(alloc, blanks(rest).1)? else {
        return Ok(None);
    };
    match blanks(rest).1 {
        [41, rest @ ..] => Ok(Some((rings, rest))),
        _ => Ok(None),
    }
}

/// Reads a polygon at the front. Returns its rings and the rest of the text.
#[tactic(auto, unfolding(crate::specs::Polygons::written_polygon_at))]
fn written_polygon_at<'a>(
    alloc: Global,
    bytes: &'a [u8],
) -> Result<Option<(Vec<Items<Option<Point>>>, &'a [u8])>, AllocError>
    ensures read { IfOk result (λ o. option_map (λ x. (x.0.items, x.1.now)) o ≡ written_polygon_in bytes.now) }
{
    let Some(rest) = any_case_at(b"polygon", bytes) else {
        return Ok(None);
    };
    rings_at(alloc, blanks(rest).1)
}

/// Reads a polygon at the front, with or without `SRID=0;` before it. Returns its rings and the
/// rest of the text.
#[tactic(auto, unfolding(crate::specs::Polygons::polygon_value_at, mob_points::specs::Points::behind_srid_at))]
fn polygon_value_at<'a>(
    alloc: Global,
    bytes: &'a [u8],
) -> Result<Option<(Vec<Items<Option<Point>>>, &'a [u8])>, AllocError>
    ensures read { IfOk result (λ o. option_map (λ x. (x.0.items, x.1.now)) o ≡ polygon_value_in bytes.now) }
{
    let (_, rest) = maybe(srid_zero_at(bytes), bytes);
    written_polygon_at(alloc, rest)
}

/// Reads all of the bytes as a polygon with optional blanks at both ends. Returns its rings.
fn rings_in_all(
    alloc: Global,
    bytes: &[u8],
) -> Result<Option<Items<Items<Option<Point>>>>, AllocError>
    ensures read { IfOk result (λ o. o ≡ all_of (within_blanks_at polygon_value_in) bytes.now) }
{
    let Some((rings, rest)) = polygon_value_at(alloc, blanks(bytes).1)? else {
        return Ok(None);
    };
    match blanks(rest).1 {
        [] => Ok(Some(Items::from_vec(rings))),
        _ => Ok(None),
    }
}

/// Whether the rings have more than 1,000 points in total.
fn has_many_points(rings: &[Items<Option<Point>>]) -> bool
    ensures value { result ≡ many_points rings.now }
{
    let mut left = 1000;
    for ring in rings {
        if ring.len() > left {
            return true;
        }
        left -= ring.len();
    }
    false
}

/// The points of a ring; `None` if one of them does not fit.
fn fitting_ring(alloc: Global, ring: &[Option<Point>]) -> Result<Option<Vec<Point>>, AllocError>
    ensures made { IfOk result (λ o. option_map (λ v. v.items) o ≡ traverse (λ p. p) ring.now) }
{
    let mut points = Vec::new(alloc);
    for place in ring {
        let Some(point) = place else {
            return Ok(None);
        };
        points.push(*point)?;
    }
    Ok(Some(points))
}

/// The points of all rings; `None` if one of them does not fit.
fn fitting_rings(
    alloc: Global,
    rings: &[Items<Option<Point>>],
) -> Result<Option<Vec<Vec<Point>>>, AllocError>
    ensures made { IfOk result (λ o. option_map (λ v. rings_of v.items) o ≡ rings_said rings.now) }
{
    let mut fitting = Vec::new(alloc);
    for ring in rings {
        let Some(points) = fitting_ring(alloc, ring.as_slice())? else {
            return Ok(None);
        };
        fitting.push(points)?;
    }
    Ok(Some(fitting))
}

/// Reads a polygon from its text, which has the form of WKT.
///
/// A polygon is `POLYGON((x y,x y,x y,x y),(x y,x y,x y,x y))`, in any letter case, with one or
/// more rings of one or more points each, and with numbers as `read_number` reads them. Blanks may
/// be beside each bracket and comma and at both ends, and at least one is between the two numbers
/// of a point. `SRID=0;` may come before it. The faults, in this order: `NotText` for any other
/// text, `Limit` if the rings have more than 1,000 points in total, `TooLarge` if a coordinate has
/// more than 62 bits, and `Unsound` if a ring has fewer than four points or its first and last
/// points differ. `NoMemory` if an allocation fails.
pub fn read_polygon(alloc: Global, text: &str) -> Result<Polygon, ReadText>
    ensures reading { Lit polygons text.now result }
{
    let rings = match rings_in_all(alloc, text.as_bytes()) {
        Ok(Some(rings)) => rings,
        Ok(None) => return Err(ReadText::NotText),
        Err(_) => return Err(ReadText::NoMemory),
    };
    if has_many_points(rings.as_slice()) {
        return Err(ReadText::Limit);
    }
    let fitting = match fitting_rings(alloc, rings.as_slice()) {
        Ok(Some(fitting)) => fitting,
        Ok(None) => return Err(ReadText::TooLarge),
        Err(_) => return Err(ReadText::NoMemory),
    };
    match Polygon::new(fitting) {
        Ok(polygon) => Ok(polygon),
        Err(_) => Err(ReadText::Unsound),
    }
}
