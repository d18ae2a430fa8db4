//! The coordinates of a moving point.
ghost use Rattle.std.specs.Prelude.{◌≡◌, IfOk, option_map};
ghost use Rattle.mob_ratio.specs.Ratio.{Ratio};
ghost use Rattle.mob_slice.specs.Lines.{line_value_of, plane_value_of};
ghost use Rattle.mob_slice.specs.Slices.{value_at};
ghost use Rattle.mob_restrict.specs.Coordinates.{coordinate_of, coordinate_line};

use mob_frac::Frac;
use mob_lift::normal::normal;
use mob_plane::Point;
use mob_slice::{Line, Moving, PlaneLine, Slice};
use std::alloc::{AllocError, Global};

// The axis of a coordinate.
#[derive(Clone, Copy)]
enum Axis {
    X,
    Y,
}

/// The coordinate to the east of a moving point, at each instant at which it is defined
/// (MobilityDB's `getX`). No number is computed, so the only error is a failed allocation.
pub fn get_x(alloc: Global, a: &Moving<PlaneLine>) -> Result<Moving<Line>, AllocError>
    ensures value { IfOk result (λ r. (t : Ratio) → value_at line_value_of r t ≡ option_map (λ p. p.x) (value_at plane_value_of a.now t)) }
{
    coordinate(alloc, a, Axis::X)
}

/// The coordinate to the north (MobilityDB's `getY`). The only error is a failed allocation.
pub fn get_y(alloc: Global, a: &Moving<PlaneLine>) -> Result<Moving<Line>, AllocError>
    ensures value { IfOk result (λ r. (t : Ratio) → value_at line_value_of r t ≡ option_map (λ p. p.y) (value_at plane_value_of a.now t)) }
{
    coordinate(alloc, a, Axis::Y)
}

// The coordinate of a moving point on that axis.
fn coordinate(alloc: Global, a: &Moving<PlaneLine>, axis: Axis) -> Result<Moving<Line>, AllocError>
    ensures value { IfOk result (λ r. (t : Ratio) → value_at line_value_of r t ≡ option_map (coordinate_of axis) (value_at plane_value_of a.now t)) }
{
    let mut lines = Vec::new(alloc);
    let slices = a.slices();
    for slice in slices {
        lines.push(line_on(slice, axis))?;
    }
    match normal(alloc, lines)? {
        Some(value) => Ok(value),
        None => unreachable!(),
    }
}

// The line of that coordinate on the span of a slice.
fn line_on(slice: &Slice<PlaneLine>, axis: Axis) -> Slice<Line>
    ensures same { result ≡ coordinate_line axis slice.now }
{
    Slice {
        span: slice.span,
        course: Line {
            from: on_axis(&slice.course.from, axis),
            to: on_axis(&slice.course.to, axis),
        },
    }
}

// The coordinate of a point on that axis.
fn on_axis(point: &Point, axis: Axis) -> Frac
    ensures same { result ≡ coordinate_of axis point.now }
{
    match axis {
        Axis::X => point.x,
        Axis::Y => point.y,
    }
}
