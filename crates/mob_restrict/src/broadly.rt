//! Restriction to the instants at which a value is taken, or to all others, in numbers of any size,
//! as with `--wide`. A slice is cut in `Frac`s, and only if a step of that overflows, in `Broad`s.
ghost use Rattle.std.specs.List.{flat_map};
ghost use Rattle.std.specs.Prelude.{◌≡◌, true, false, IfOk};
ghost use Rattle.mob_slice.specs.Entries.{IsJudged};
ghost use Rattle.mob_slice.specs.Slices.{IsSound};
ghost use Rattle.mob_slice.specs.declared.comparison.Rel.TheVariants.{Eq};
ghost use Rattle.mob_cells.specs.Kept.{IsKeptWhere};
ghost use Rattle.mob_cells.specs.Restricted.{IsRestricted};
ghost use Rattle.mob_restrict.specs.Sql.Wide.{given_values};

use crate::by_value::{on_lines, on_steps};
use mob_cells::{HasCoordinates, Restriction, gaps_at, kept_wide, restricted, turning_on};
use mob_lift::normal::normal;
use mob_list::fault::Fault;
use mob_slice::{Course, Formula, Moving, Piece, Rel, Side, Slice};
use std::alloc::Global;

// The part of a slice that is kept, in `Broad`s, for a course that is not steady.
fn on_broad_lines<C: HasCoordinates + Drop>(
    alloc: Global,
    slice: &Slice<C>,
    value: &C::Base,
    want: bool,
) -> Result<Vec<Slice<C>>, Fault<Formula>>
where
    C::Base: Drop,
    requires moves { C.STEADY ≡ false }
    requires sound { IsSound C.start_of C.end_of slice.now }
    ensures kept { IsKeptWhere C.Course (λ v. v.items) want (λ t x. C.relation Eq x value.now) slice.now slice.now.span (given_values C.value_of C.gaps_of (C.relation Eq) value.now slice.now) result }
{
    let piece = Piece {
        span: slice.span,
        left: Side::Moving(slice),
        right: Side::Fixed(value),
    };
    let first = gaps_at::<C>(alloc, &piece, slice.span.lower())?;
    let last = gaps_at::<C>(alloc, &piece, slice.span.upper())?;
    let turning = turning_on(alloc, &slice.span, Rel::Eq, &first, &last)?;
    kept_wide::<C>(alloc, slice, &turning, value, want)
}

// The part of a slice that is kept, for a course that is not steady.
fn on_lines_wide<C: HasCoordinates + Drop>(
    alloc: Global,
    slice: &Slice<C>,
    value: &C::Base,
    want: bool,
) -> Result<Vec<Slice<C>>, Fault<Formula>>
where
    C::Base: Drop,
    requires moves { C.STEADY ≡ false }
    requires sound { IsSound C.start_of C.end_of slice.now }
    ensures kept { IsKeptWhere C.Course (λ v. v.items) want (λ t x. C.relation Eq x value.now) slice.now slice.now.span (given_values C.value_of C.gaps_of (C.relation Eq) value.now slice.now) result }
{
    match on_lines::<C>(alloc, slice, value, want) {
        Ok(kept) => Ok(kept),
        Err(Fault::NoMemory) => Err(Fault::NoMemory),
        Err(Fault::Because(_)) => on_broad_lines::<C>(alloc, slice, value, want),
    }
}

// The part of a slice of a steady course that is kept: all of it, or nothing.
fn on_steps_wide<C: HasCoordinates + Drop>(
    alloc: Global,
    slice: &Slice<C>,
    value: &C::Base,
    want: bool,
) -> Result<Vec<Slice<C>>, Fault<Formula>>
where
    C::Base: Drop,
    requires steady { C.STEADY ≡ true }
    requires sound { IsSound C.start_of C.end_of slice.now }
    ensures kept { IsKeptWhere C.Course (λ v. v.items) want (λ t x. C.relation Eq x value.now) slice.now slice.now.span (given_values C.value_of C.gaps_of (C.relation Eq) value.now slice.now) result }
{
    on_steps::<C>(alloc, slice, value, want)
}

// The condition that a value equals a given one.
#[derive(Drop)]
struct ToValueWide<'a, C: Course> {
    value: &'a C::Base,
}

impl<'a, C: HasCoordinates + Drop> Restriction<C> for ToValueWide<'a, C>
where
    C::Base: Drop,
{
    ghost meets = { λ by t x. C.relation Eq x by.value.now };

    ghost entries = { λ by s. given_values C.value_of C.gaps_of (C.relation Eq) by.value.now s };

    fn on_slice(
        &self,
        alloc: Global,
        slice: &Slice<C>,
        want: bool,
    ) -> Result<Vec<Slice<C>>, Fault<Formula>> {
        if C::STEADY {
            return on_steps_wide::<C>(alloc, slice, self.value, want);
        }
        on_lines_wide::<C>(alloc, slice, self.value, want)
    }
}

// The restriction to the instants at which equality with the value has the wanted result.
fn to_value_wide<C: HasCoordinates + Drop>(
    alloc: Global,
    a: &Moving<C>,
    value: &C::Base,
    want: bool,
) -> Result<Option<Moving<C>>, Fault<Formula>>
where
    C::Base: Drop,
    ensures value { IfOk result (λ r. IsRestricted C.value_of want (λ t x. C.relation Eq x value.now) a.now r) }
    ensures first { IsJudged (flat_map (given_values C.value_of C.gaps_of (C.relation Eq) value.now) a.now) result }
{
    let slices = restricted::<C, ToValueWide<'_, C>>(
        alloc,
        a.slices(),
        &ToValueWide { value },
        want,
    )?;
    Ok(normal(alloc, slices)?)
}

/// The temporal value at the instants at which it equals the given value, in numbers of any size. It
/// is that of `at_value`, whose steps may have any size here.
///
/// The fault is `Given`, exactly if an instant inside a slice at which it comes to the value or
/// leaves it does not fit, or out of memory.
pub fn at_value_wide<C: HasCoordinates + Drop>(
    alloc: Global,
    a: &Moving<C>,
    value: &C::Base,
) -> Result<Option<Moving<C>>, Fault<Formula>>
where
    C::Base: Drop,
    ensures value { IfOk result (λ r. IsRestricted C.value_of true (λ t x. C.relation Eq x value.now) a.now r) }
    ensures first { IsJudged (flat_map (given_values C.value_of C.gaps_of (C.relation Eq) value.now) a.now) result }
{
    to_value_wide::<C>(alloc, a, value, true)
}

/// The temporal value at the instants at which it differs from the given value, in numbers of any
/// size. It is that of `minus_value`, whose steps may have any size here.
///
/// The fault is that of `at_value_wide`, whatever is kept.
pub fn minus_value_wide<C: HasCoordinates + Drop>(
    alloc: Global,
    a: &Moving<C>,
    value: &C::Base,
) -> Result<Option<Moving<C>>, Fault<Formula>>
where
    C::Base: Drop,
    ensures value { IfOk result (λ r. IsRestricted C.value_of false (λ t x. C.relation Eq x value.now) a.now r) }
    ensures first { IsJudged (flat_map (given_values C.value_of C.gaps_of (C.relation Eq) value.now) a.now) result }
{
    to_value_wide::<C>(alloc, a, value, false)
}
