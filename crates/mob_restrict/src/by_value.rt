//! Restriction to the instants at which a value is taken, or to all others.
ghost use Rattle.std.specs.Prelude.{◌≡◌, true, false, IfOk};
ghost use Rattle.std.specs.List.{flat_map};
ghost use Rattle.mob_slice.specs.Slices.{IsSound};
ghost use Rattle.mob_slice.specs.Entries.{IsJudged};
ghost use Rattle.mob_slice.specs.declared.comparison.Rel.TheVariants.{Eq};
ghost use Rattle.mob_cells.specs.Kept.{IsKeptWhere};
ghost use Rattle.mob_cells.specs.Restricted.{IsRestricted};
ghost use Rattle.mob_restrict.specs.Values.{entries_of_value};

use mob_cells::{ByGaps, Restriction, gap_functions, kept, restricted};
use mob_lift::listed;
use mob_lift::normal::normal;
use mob_list::fault::Fault;
use mob_slice::{Compared, Course, Formula, Moving, Rel, Slice, cut};
use mob_span::same_bool;
use std::alloc::Global;

// The part of a slice that is kept, for a course that is not steady.
pub(crate) fn on_lines<C: Compared + Drop>(
    alloc: Global,
    slice: &Slice<C>,
    value: &C::Base,
    want: bool,
) -> Result<Vec<Slice<C>>, Fault<Formula>>
where
    C::Base: Drop,
    requires moves { C.STEADY ≡ false }
    requires sound { IsSound C.start_of C.end_of slice.now }
    ensures kept { IsKeptWhere C.Course (λ v. v.items) want (λ t x. C.relation Eq x value.now) slice.now slice.now.span (entries_of_value C.value_of C.parts_of C.gaps_of value.now slice.now) result }
{
    let functions = gap_functions::<C>(
        alloc,
        slice.course.start(),
        value,
        slice.course.end(),
        value,
    )?;
    kept(
        alloc,
        slice,
        &slice.span,
        functions,
        &ByGaps { rel: Rel::Eq },
        want,
    )
}

// The part of a slice of a steady course that is kept: all of it, or nothing.
pub(crate) fn on_steps<C: Compared + Drop>(
    alloc: Global,
    slice: &Slice<C>,
    value: &C::Base,
    want: bool,
) -> Result<Vec<Slice<C>>, Fault<Formula>>
where
    C::Base: Drop,
    requires steady { C.STEADY ≡ true }
    requires sound { IsSound C.start_of C.end_of slice.now }
    ensures kept { IsKeptWhere C.Course (λ v. v.items) want (λ t x. C.relation Eq x value.now) slice.now slice.now.span (entries_of_value C.value_of C.parts_of C.gaps_of value.now slice.now) result }
{
    let keeps = C::relates(Rel::Eq, slice.course.start(), value);
    if !same_bool(want, keeps) {
        return Ok(Vec::new(alloc));
    }
    let part = cut(alloc, slice, &slice.span)?;
    listed(alloc, part)
}

// The condition that a value equals a given one.
#[derive(Drop)]
struct ToValue<'a, C: Course> {
    value: &'a C::Base,
}

impl<'a, C: Compared + Drop> Restriction<C> for ToValue<'a, C>
where
    C::Base: Drop,
{
    ghost meets = { λ by t x. C.relation Eq x by.value.now };

    ghost entries = { λ by s. entries_of_value C.value_of C.parts_of C.gaps_of by.value.now s };

    fn on_slice(
        &self,
        alloc: Global,
        slice: &Slice<C>,
        want: bool,
    ) -> Result<Vec<Slice<C>>, Fault<Formula>> {
        if C::STEADY {
            return on_steps::<C>(alloc, slice, self.value, want);
        }
        on_lines::<C>(alloc, slice, self.value, want)
    }
}

// The restriction to the instants at which equality with the value has the wanted result.
fn to_value<C: Compared + Drop>(
    alloc: Global,
    a: &Moving<C>,
    value: &C::Base,
    want: bool,
) -> Result<Option<Moving<C>>, Fault<Formula>>
where
    C::Base: Drop,
    ensures value { IfOk result (λ r. IsRestricted C.value_of want (λ t x. C.relation Eq x value.now) a.now r) }
    ensures first { IsJudged (flat_map (entries_of_value C.value_of C.parts_of C.gaps_of value.now) a.now) result }
{
    let slices = restricted::<C, ToValue<'_, C>>(alloc, a.slices(), &ToValue { value }, want)?;
    Ok(normal(alloc, slices)?)
}

/// The temporal value at the instants at which it equals the given value (MobilityDB's `atValues`).
/// `None` exactly if no such instant exists.
///
/// The fault names the formula of the first entry that has a part that does not fit: on each slice
/// F2, the gaps to that value at its ends, then F3, their roots, then F1 at these roots. Steady
/// courses have no formula.
pub fn at_value<C: Compared + Drop>(
    alloc: Global,
    a: &Moving<C>,
    value: &C::Base,
) -> Result<Option<Moving<C>>, Fault<Formula>>
where
    C::Base: Drop,
    ensures value { IfOk result (λ r. IsRestricted C.value_of true (λ t x. C.relation Eq x value.now) a.now r) }
    ensures first { IsJudged (flat_map (entries_of_value C.value_of C.parts_of C.gaps_of value.now) a.now) result }
{
    to_value::<C>(alloc, a, value, true)
}

/// The temporal value at the instants at which it differs from the given value (MobilityDB's
/// `minusValues`). `None` exactly if no such instant exists.
///
/// The fault is that of `at_value`: the formulas are the same, whatever is kept.
pub fn minus_value<C: Compared + Drop>(
    alloc: Global,
    a: &Moving<C>,
    value: &C::Base,
) -> Result<Option<Moving<C>>, Fault<Formula>>
where
    C::Base: Drop,
    ensures value { IfOk result (λ r. IsRestricted C.value_of false (λ t x. C.relation Eq x value.now) a.now r) }
    ensures first { IsJudged (flat_map (entries_of_value C.value_of C.parts_of C.gaps_of value.now) a.now) result }
{
    to_value::<C>(alloc, a, value, false)
}
