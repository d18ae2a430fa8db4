//! The part of a moving point in a polygon.
ghost use Rattle.std.specs.Prelude.{IfOk};
ghost use Rattle.std.specs.List.{flat_map};
ghost use Rattle.mob_plane.specs.Membership.{inside};
ghost use Rattle.mob_slice.specs.Entries.{IsFirst, IsJudged};
ghost use Rattle.mob_slice.specs.Lines.{plane_value_of};
ghost use Rattle.mob_cells.specs.Restricted.{IsRestricted};
ghost use Rattle.mob_clip.specs.Polygons.{entries_of_polygon};
ghost use Rattle.mob_clip.specs.Sql.Polygons.{IsPolygonRestriction, IsIntersecting};
ghost use Rattle.mob_clip.specs.Sql.Entries.{polygon_entries};
ghost use Rattle.mob_value.specs.Outcomes.{IsOutcome};

use crate::polygons::{at_polygon, ever_inside, minus_polygon};
use mob_list::fault::Fault;
use mob_plane::Polygon;
use mob_slice::{Formula, Moving, PlaneLine};
use mob_value::Value;
use mob_value::kinds::point_or_null;
use std::alloc::Global;

// The part inside the polygon if `want` is true, else the part outside.
fn restricted(
    alloc: Global,
    want: bool,
    a: &Moving<PlaneLine>,
    area: &Polygon,
) -> Result<Option<Moving<PlaneLine>>, Fault<Formula>>
    ensures value { IfOk result (λ r. IsRestricted plane_value_of want (λ t p. inside area.now p) a.now r) }
    ensures first { IsJudged (flat_map (entries_of_polygon area.now) a.now) result }
{
    match want {
        true => at_polygon(alloc, a, area),
        false => minus_polygon(alloc, a, area),
    }
}

/// atGeometry if `want` is true, minusGeometry if it is false.
pub fn polygon_restriction(
    alloc: Global,
    want: bool,
    value: &Value,
    asked: &Value,
) -> Result<Value, Fault<Formula>>
    ensures outcome { IsOutcome (IsPolygonRestriction want value.now asked.now) (IsFirst (polygon_entries value.now asked.now)) result }
{
    match (value, asked) {
        (Value::MovingPoint(a), Value::Polygon(area)) => Ok(point_or_null(restricted(
            alloc, want, a, area,
        )?)),
        _ => Ok(Value::Null),
    }
}

/// eIntersects: whether a moving point is in a polygon at some instant.
pub fn intersects(alloc: Global, value: &Value, asked: &Value) -> Result<Value, Fault<Formula>>
    ensures outcome { IsOutcome (IsIntersecting value.now asked.now) (IsFirst (polygon_entries value.now asked.now)) result }
{
    match (value, asked) {
        (Value::MovingPoint(a), Value::Polygon(area)) => Ok(Value::Bool(ever_inside(
            alloc, a, area,
        )?)),
        _ => Ok(Value::Null),
    }
}
