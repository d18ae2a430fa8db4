//! Prints polygons.
ghost use Rattle.std.specs.Prelude.{◌≡◌, ◌++◌, map, OnOk, OnErr, string_bytes};
ghost use Rattle.std.specs.List.{join_with_byte};
ghost use Rattle.mob_plane.specs.Rings.{rings_of};
ghost use Rattle.mob_geotext.specs.PolygonText.{vertex_text, ring_text, polygon_text};

use mob_numeral::write_number;
use mob_plane::{Point, Polygon};
use std::alloc::AllocError;

fn push_vertex(point: &Point, into: &mut String) -> Result<(), AllocError>
    ensures written { OnOk result (string_bytes into.new ≡ string_bytes into.old ++ vertex_text point.now) }
{
    write_number(&point.x, into)?;
    into.push_str(" ")?;
    write_number(&point.y, into)
}

/// Appends the points, with commas between them.
fn push_vertices(points: &[Point], into: &mut String) -> Result<(), AllocError>
    ensures written { OnOk result (string_bytes into.new ≡ string_bytes into.old ++ join_with_byte 44 (map vertex_text points.now)) }
{
    let [first, rest @ ..] = points else {
        return Ok(());
    };
    push_vertex(first, into)?;
    for next in rest {
        into.push_str(",")?;
        push_vertex(next, into)?;
    }
    Ok(())
}

fn push_ring(ring: &[Point], into: &mut String) -> Result<(), AllocError>
    ensures written { OnOk result (string_bytes into.new ≡ string_bytes into.old ++ ring_text ring.now) }
{
    into.push_str("(")?;
    push_vertices(ring, into)?;
    into.push_str(")")
}

/// Appends the rings, with commas between them.
fn push_rings(rings: &[Vec<Point>], into: &mut String) -> Result<(), AllocError>
    ensures written { OnOk result (string_bytes into.new ≡ string_bytes into.old ++ join_with_byte 44 (map ring_text (rings_of rings.now))) }
{
    let [first, rest @ ..] = rings else {
        return Ok(());
    };
    push_ring(first.as_slice(), into)?;
    for next in rest {
        into.push_str(",")?;
        push_ring(next.as_slice(), into)?;
    }
    Ok(())
}

fn push_polygon(rings: &[Vec<Point>], into: &mut String) -> Result<(), AllocError>
    ensures written { OnOk result (string_bytes into.new ≡ string_bytes into.old ++ polygon_text (rings_of rings.now)) }
{
    into.push_str("POLYGON(")?;
    push_rings(rings, into)?;
    into.push_str(")")
}

/// Appends the text of a polygon, `POLYGON((x y,x y,x y,x y),(x y,x y,x y,x y))`. An error means
/// that an allocation failed; the text is then unchanged.
pub fn write_polygon(polygon: &Polygon, into: &mut String) -> Result<(), AllocError>
    ensures ok { OnOk result (string_bytes into.new ≡ string_bytes into.old ++ polygon_text polygon.now) }
    ensures err { OnErr result (string_bytes into.new ≡ string_bytes into.old) }
{
    let mut text = String::new(*into.allocator());
    push_polygon(polygon.rings(), &mut text)?;
    into.push_str(text.as_str())
}
