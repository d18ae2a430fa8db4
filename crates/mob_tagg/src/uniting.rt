//! The union of counts, conjunctions and disjunctions over time.

use crate::adding::{add_in, and_in, or_in};
use crate::parts::Uniting;
use mob_frac::Frac;
use mob_slice::{Moving, Steady};
use std::alloc::{AllocError, Global};

/// The sum of counts. A sum that does not fit is reported as out of memory: no list of values is
/// long enough to get there (`no_count_passes` of `mob_tail`).
pub struct Counts;

impl Uniting<Steady<Frac>> for Counts {
    ghost use Rattle.mob_arith.specs.Operations.{sum_of};
    ghost use Rattle.mob_tagg.specs.UnitingLaws.{sums_associate};

    ghost op = { sum_of };

    fn unite(
        alloc: Global,
        a: &Moving<Steady<Frac>>,
        b: &Moving<Steady<Frac>>,
    ) -> Result<Moving<Steady<Frac>>, AllocError> {
        match add_in(alloc, a, b) {
            Ok(sum) => Ok(sum),
            Err(_) => Err(AllocError),
        }
    }

    ghost law = { sums_associate };
}

/// The conjunction.
pub struct Conjunctions;

impl Uniting<Steady<bool>> for Conjunctions {
    ghost use Rattle.mob_arith.specs.Operations.{both_hold};
    ghost use Rattle.mob_tagg.specs.UnitingLaws.{both_associate};

    ghost op = { both_hold };

    fn unite(
        alloc: Global,
        a: &Moving<Steady<bool>>,
        b: &Moving<Steady<bool>>,
    ) -> Result<Moving<Steady<bool>>, AllocError> {
        and_in(alloc, a, b)
    }

    ghost law = { both_associate };
}

/// The disjunction.
pub struct Disjunctions;

impl Uniting<Steady<bool>> for Disjunctions {
    ghost use Rattle.mob_arith.specs.Operations.{one_holds};
    ghost use Rattle.mob_tagg.specs.UnitingLaws.{one_associates};

    ghost op = { one_holds };

    fn unite(
        alloc: Global,
        a: &Moving<Steady<bool>>,
        b: &Moving<Steady<bool>>,
    ) -> Result<Moving<Steady<bool>>, AllocError> {
        or_in(alloc, a, b)
    }

    ghost law = { one_associates };
}
