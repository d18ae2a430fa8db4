//! How the values of the temporal types are read and printed.
ghost use Rattle.std.specs.Prelude.{Option, false};
ghost use Rattle.mob_numeral.specs.NumberText.{number_text};
ghost use Rattle.mob_scalar.specs.Truth.{truth_text};
ghost use Rattle.mob_scalar.specs.Quoted.{quoted_text};
ghost use Rattle.mob_points.specs.PointText.{point_text};

use crate::literal::WrittenValue;
use crate::printing::Printed;
use mob_frac::Frac;
use mob_list::text::Text;
use mob_plane::Point;
use mob_points::{point_value_at, write_point};
use mob_scalar::{
    number_value_at, text_value_at, truth_at, write_number, write_text_value, write_truth,
};
use std::alloc::{AllocError, Global};

/// The values of a tbool: `t`, `f`, `true` or `false`, in any letter case.
pub struct Truths;

impl WrittenValue for Truths {
    ghost use Rattle.mob_written.specs.Values.{any_value, truth_value, truth_value_at as truth_in, truth_follows, truth_values};

    type Base = bool;

    ghost shape = { truth_value };

    ghost reader = { truth_in };

    const HAS_SRID: bool = false;

    ghost HAS_SRID = { false };

    ghost follows = { truth_follows };

    ghost has_value = { any_value };

    #[tactic(auto, unfolding(crate::specs::Values::truth_value_at))]
    fn value_at(alloc: Global, bytes: &[u8]) -> Result<Option<(Option<bool>, &[u8])>, AllocError> {
        match truth_at(bytes) {
            Some((truth, rest)) => Ok(Some((Some(truth), rest))),
            None => Ok(None),
        }
    }

    fn has_value(value: &bool) -> bool {
        true
    }

    ghost exact = { truth_values };
}

/// The values of a tint: numbers whose value is whole.
pub struct WholeNumbers;

impl WrittenValue for WholeNumbers {
    ghost use Rattle.mob_numeral.specs.Fitting.{number_value, number_value_at as number_in};
    ghost use Rattle.mob_written.specs.Values.{is_whole_number, number_follows, number_values};

    type Base = Frac;

    ghost shape = { number_value };

    ghost reader = { number_in };

    const HAS_SRID: bool = false;

    ghost HAS_SRID = { false };

    ghost follows = { number_follows };

    ghost has_value = { is_whole_number };

    fn value_at(alloc: Global, bytes: &[u8]) -> Result<Option<(Option<Frac>, &[u8])>, AllocError> {
        Ok(number_value_at(bytes))
    }

    fn has_value(value: &Frac) -> bool {
        value.den() == 1
    }

    ghost exact = { number_values };
}

/// The values of a tfrac: numbers.
pub struct Numbers;

impl WrittenValue for Numbers {
    ghost use Rattle.mob_numeral.specs.Fitting.{number_value, number_value_at as number_in};
    ghost use Rattle.mob_written.specs.Values.{any_value, number_follows, number_values};

    type Base = Frac;

    ghost shape = { number_value };

    ghost reader = { number_in };

    const HAS_SRID: bool = false;

    ghost HAS_SRID = { false };

    ghost follows = { number_follows };

    ghost has_value = { any_value };

    fn value_at(alloc: Global, bytes: &[u8]) -> Result<Option<(Option<Frac>, &[u8])>, AllocError> {
        Ok(number_value_at(bytes))
    }

    fn has_value(value: &Frac) -> bool {
        true
    }

    ghost exact = { number_values };
}

/// The values of a ttext: in double quotes, or bare.
pub struct Texts;

impl WrittenValue for Texts {
    ghost use Rattle.mob_scalar.proofs.QuotedExact.{Behind};
    ghost use Rattle.mob_written.specs.Values.{any_value, quoted_value, quoted_value_at as quoted_in, quoted_values};

    type Base = Text;

    ghost shape = { quoted_value };

    ghost reader = { quoted_in };

    const HAS_SRID: bool = false;

    ghost HAS_SRID = { false };

    ghost follows = { Behind };

    ghost has_value = { any_value };

    #[tactic(auto, unfolding(crate::specs::Values::quoted_value_at))]
    fn value_at(alloc: Global, bytes: &[u8]) -> Result<Option<(Option<Text>, &[u8])>, AllocError> {
        match text_value_at(alloc, bytes)? {
            Some((text, rest)) => Ok(Some((Some(text), rest))),
            None => Ok(None),
        }
    }

    fn has_value(value: &Text) -> bool {
        true
    }

    ghost exact = { quoted_values };
}

/// The values of a tgeompoint: points, each with or without `SRID=0;` before it.
pub struct Points;

impl WrittenValue for Points {
    ghost use Rattle.std.specs.Prelude.{true};
    ghost use Rattle.mob_language.proofs.Exact.{Any};
    ghost use Rattle.mob_points.specs.Points.{point_value, point_value_at as point_in};
    ghost use Rattle.mob_written.specs.Values.{any_value, point_values};

    type Base = Point;

    ghost shape = { point_value };

    ghost reader = { point_in };

    const HAS_SRID: bool = true;

    ghost HAS_SRID = { true };

    ghost follows = { Any };

    ghost has_value = { any_value };

    fn value_at(alloc: Global, bytes: &[u8]) -> Result<Option<(Option<Point>, &[u8])>, AllocError> {
        Ok(point_value_at(bytes))
    }

    fn has_value(value: &Point) -> bool {
        true
    }

    ghost exact = { point_values };
}

impl Printed for bool {
    ghost text = { truth_text };

    fn write(&self, into: &mut String) -> Result<(), AllocError> {
        write_truth(*self, into)
    }
}

impl Printed for Frac {
    ghost text = { number_text };

    fn write(&self, into: &mut String) -> Result<(), AllocError> {
        write_number(self, into)
    }
}

impl Printed for Text {
    ghost text = { quoted_text };

    fn write(&self, into: &mut String) -> Result<(), AllocError> {
        write_text_value(self, into)
    }
}

impl Printed for Point {
    ghost text = { point_text };

    fn write(&self, into: &mut String) -> Result<(), AllocError> {
        write_point(self, into)
    }
}
