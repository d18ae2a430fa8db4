//! Prints points.
ghost use Rattle.std.specs.Prelude.{◌≡◌, ◌++◌, OnOk, OnErr, string_bytes};
ghost use Rattle.mob_points.specs.PointText.{point_text};

use mob_numeral::write_number;
use mob_plane::Point;
use std::alloc::AllocError;

fn push_point(point: &Point, into: &mut String) -> Result<(), AllocError>
    ensures written { OnOk result (string_bytes into.new ≡ string_bytes into.old ++ point_text point.now) }
{
    into.push_str("POINT(")?;
    write_number(&point.x, into)?;
    into.push_str(" ")?;
    write_number(&point.y, into)?;
    into.push_str(")")
}

/// Appends the text of a point, `POINT(x y)`. An error means that an allocation failed; the text is
/// then unchanged.
pub fn write_point(point: &Point, into: &mut String) -> Result<(), AllocError>
    ensures ok { OnOk result (string_bytes into.new ≡ string_bytes into.old ++ point_text point.now) }
    ensures err { OnErr result (string_bytes into.new ≡ string_bytes into.old) }
{
    let mut text = String::new(*into.allocator());
    push_point(point, &mut text)?;
    into.push_str(text.as_str())
}
