//! The coordinates of a value, in numbers of any size.
ghost use Rattle.std.specs.Prelude.{◌≡◌, IfOk};
ghost use Rattle.mob_slice.specs.declared.comparison.Gaps.{Gaps};
ghost use Rattle.mob_slice.specs.declared.comparison.Gaps.TheVariants.{Constant, One, Two};
ghost use Rattle.mob_cells.specs.Coordinates.{AreCoordinates, as_gaps, number_coordinates, point_coordinates, steps_apart, numbers_apart, points_apart};

use mob_frac::Frac;
use mob_plane::Point;
use mob_slice::{Compared, Line, PlaneLine, Ranked, Steady};
use mob_wide::{Broad, line_at};
use std::alloc::{AllocError, Global};

/// The coordinates of a value, or the differences of those of two values, of any size.
#[derive(Drop)]
pub enum Coordinates {
    /// The course is steady, and its values have no coordinates.
    Steady,
    /// A number.
    One(Broad),
    /// A point.
    Two(Broad, Broad),
}

/// A course whose values can be computed in numbers of any size.
pub trait HasCoordinates: Compared {
    /// The coordinates of a value.
    ghost coordinates_of: { Self.Base → Gaps };

    /// The coordinates of a value.
    fn coordinates(alloc: Global, base: &Self::Base) -> Result<Coordinates, AllocError>
        ensures same { IfOk result (λ c. as_gaps c ≡ coordinates_of base.now) };

    /// The coordinates of the value at an instant, on the span from `lower` to `upper`.
    fn coordinates_at(
        &self,
        alloc: Global,
        lower: &Frac,
        upper: &Frac,
        t: &Frac,
    ) -> Result<Coordinates, AllocError>
        ensures value { IfOk result (λ c. as_gaps c ≡ coordinates_of (Self.value_of self.now lower.now upper.now t.now)) };

    ghost apart: { AreCoordinates Self.gaps_of coordinates_of };
}

impl<B: Ranked + Drop> HasCoordinates for Steady<B> {
    ghost coordinates_of = { λ x. Constant };

    fn coordinates(alloc: Global, base: &B) -> Result<Coordinates, AllocError> {
        Ok(Coordinates::Steady)
    }

    fn coordinates_at(
        &self,
        alloc: Global,
        lower: &Frac,
        upper: &Frac,
        t: &Frac,
    ) -> Result<Coordinates, AllocError> {
        Ok(Coordinates::Steady)
    }

    ghost apart = { steps_apart };
}

impl HasCoordinates for Line {
    ghost coordinates_of = { number_coordinates };

    fn coordinates(alloc: Global, base: &Frac) -> Result<Coordinates, AllocError> {
        let number = Broad::new(alloc, base)?;
        Ok(Coordinates::One(number))
    }

    fn coordinates_at(
        &self,
        alloc: Global,
        lower: &Frac,
        upper: &Frac,
        t: &Frac,
    ) -> Result<Coordinates, AllocError> {
        let number = line_at(alloc, &self.from, &self.to, lower, upper, t)?;
        Ok(Coordinates::One(number))
    }

    ghost apart = { numbers_apart };
}

impl HasCoordinates for PlaneLine {
    ghost coordinates_of = { point_coordinates };

    fn coordinates(alloc: Global, base: &Point) -> Result<Coordinates, AllocError> {
        let x = Broad::new(alloc, &base.x)?;
        let y = Broad::new(alloc, &base.y)?;
        Ok(Coordinates::Two(x, y))
    }

    fn coordinates_at(
        &self,
        alloc: Global,
        lower: &Frac,
        upper: &Frac,
        t: &Frac,
    ) -> Result<Coordinates, AllocError> {
        let x = line_at(alloc, &self.from.x, &self.to.x, lower, upper, t)?;
        let y = line_at(alloc, &self.from.y, &self.to.y, lower, upper, t)?;
        Ok(Coordinates::Two(x, y))
    }

    ghost apart = { points_apart };
}
