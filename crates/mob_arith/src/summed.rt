//! Courses whose values can be added.

ghost use Rattle.std.specs.Prelude.{◌≡◌, MatchResult, Ok, Err};
ghost use Rattle.mob_ratio.specs.Ratio.{Ratio};
ghost use Rattle.mob_frac.specs.Formula.{sum_parts, difference_parts, product_parts};
ghost use Rattle.mob_slice.specs.Computed.{IsComputed};
ghost use Rattle.mob_slice.specs.declared.formula.Formula.TheVariants.{F2};
ghost use Rattle.mob_arith.specs.Operations.{sum_of, difference_of, product_of};
ghost use Rattle.mob_arith.specs.LineSummed.{line_summed};
ghost use Rattle.mob_arith.specs.Summed.{IsSummed, steady_summed};

use mob_frac::{Frac, Overflow};
use mob_slice::{Course, Formula, Line, Steady};

/// A course whose values can be added, subtracted and multiplied by a number. Each operation is the
/// ordinary one on the numbers of the values. Its fault is F2, exactly if the result does not fit.
///
/// By the law of the trait, the operations are computed from the limits: the course between the
/// sums of the limits of two courses on one span has at every instant the sum of their values. The
/// same holds for differences and multiples.
pub trait Summed: Course {
    /// The number of a value.
    ghost number: { Self.Base → Ratio };

    ghost added: { Self.Base → Self.Base → Self.Base };

    ghost subtracted: { Self.Base → Self.Base → Self.Base };

    ghost multiplied: { Self.Base → Ratio → Self.Base };

    /// The sum.
    fn sum(a: &Self::Base, b: &Self::Base) -> Result<Self::Base, Formula>
        ensures sum { IsComputed F2 (sum_parts (number a.now) (number b.now)) (added a.now b.now) result };

    /// The difference `a - b`.
    fn difference(a: &Self::Base, b: &Self::Base) -> Result<Self::Base, Formula>
        ensures difference { IsComputed F2 (difference_parts (number a.now) (number b.now)) (subtracted a.now b.now) result };

    /// The product `a * k`.
    fn scaled(a: &Self::Base, k: &Frac) -> Result<Self::Base, Formula>
        ensures multiple { IsComputed F2 (product_parts (number a.now) k.now) (multiplied a.now k.now) result };

    ghost laws: { IsSummed Self.value_of Self.start_of Self.end_of Self.can_make Self.make number added subtracted multiplied };
}

impl Summed for Steady<Frac> {
    ghost number = { λ x. x };

    ghost added = { sum_of };

    ghost subtracted = { difference_of };

    ghost multiplied = { product_of };

    fn sum(a: &Frac, b: &Frac) -> Result<Frac, Formula> {
        computed(a.add(b))
    }

    fn difference(a: &Frac, b: &Frac) -> Result<Frac, Formula> {
        computed(a.sub(b))
    }

    fn scaled(a: &Frac, k: &Frac) -> Result<Frac, Formula> {
        computed(a.mul(k))
    }

    ghost laws = { steady_summed };
}

impl Summed for Line {
    ghost number = { λ x. x };

    ghost added = { sum_of };

    ghost subtracted = { difference_of };

    ghost multiplied = { product_of };

    fn sum(a: &Frac, b: &Frac) -> Result<Frac, Formula> {
        computed(a.add(b))
    }

    fn difference(a: &Frac, b: &Frac) -> Result<Frac, Formula> {
        computed(a.sub(b))
    }

    fn scaled(a: &Frac, k: &Frac) -> Result<Frac, Formula> {
        computed(a.mul(k))
    }

    ghost laws = { line_summed };
}

// The result of one operation on numbers.
fn computed(number: Result<Frac, Overflow>) -> Result<Frac, Formula>
    ensures computed { MatchResult number (λ x. result ≡ Ok x) (λ _. result ≡ Err F2) }
{
    match number {
        Ok(value) => Ok(value),
        Err(_) => Err(Formula::F2),
    }
}
