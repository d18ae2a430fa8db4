//! Prints temporal values.
ghost use Rattle.std.specs.Prelude.{◌≡◌, ◌++◌, ◌&&◌, List, ℕ, [], ◌∷◌, map, not, OnOk, OnErr, string_bytes};
ghost use Rattle.std.specs.List.{list_all};
ghost use Rattle.mob_scalar.specs.Brackets.{with_commas};
ghost use Rattle.mob_written.specs.Printed.{instant_text, is_long as long, takes_up as takes_up_in, shares_group, start_text, opening_text, closing_text, group_text, neighbour_groups, groups_text, set_text, moving_text};
ghost use Rattle.mob_written.specs.FromLeft.{end_part, between as gap, is_one_group};
ghost use Rattle.mob_written.specs.Style.{style_of};
ghost use Rattle.mob_slice.specs.CourseOf.{course_of};

use crate::neighbours::all_neighbours;
use mob_frac::Frac;
use mob_scalar::{Epoch, write_moment};
use mob_slice::{BaseValue, Course, Moving, Slice};
use std::alloc::{AllocError, Global};

/// A value with a printed text.
pub trait Printed {
    ghost text: { Self → List ℕ };

    /// Appends the text. An error means that an allocation failed; `into` is then unchanged.
    fn write(&self, into: &mut String) -> Result<(), AllocError>
        ensures written { OnOk result (string_bytes into.new ≡ string_bytes into.old ++ text self.now) }
        ensures unchanged { OnErr result (string_bytes into.new ≡ string_bytes into.old) };
}

fn write_instant<C: Course>(
    value: &C::Base,
    instant: &Frac,
    epoch: &Epoch,
    into: &mut String,
) -> Result<(), AllocError>
where
    C::Base: BaseValue + Printed,
    ensures written { OnOk result (string_bytes into.new ≡ string_bytes into.old ++ instant_text (style_of (course_of C.Course C.Base.is_same) C.Base.text epoch.now) value.now instant.now) }
{
    value.write(into)?;
    into.push_str("@")?;
    write_moment(instant, epoch, into)
}

/// Whether a slice is longer than one instant.
fn is_long<C>(slice: &Slice<C>) -> bool
    ensures value { result ≡ long slice.now }
{
    slice.span.is_long()
}

/// Whether the next course begins with the value at which this one ends. Always true for steady
/// courses.
fn takes_up<C: Course>(course: &C, next: &C) -> bool
where
    C::Base: BaseValue,
    ensures value { result ≡ takes_up_in (course_of C.Course C.Base.is_same) course.now next.now }
{
    C::STEADY || course.end().same(next.start())
}

/// Whether two neighbours belong to the same group.
#[tactic(auto, unfolding(mob_ratio::specs::Order::same))]
fn shares_group<C: Course>(slice: &Slice<C>, next: &Slice<C>) -> bool
where
    C::Base: BaseValue,
    ensures value { result ≡ shares_group (course_of C.Course C.Base.is_same) slice.now next.now }
{
    slice.span.upper().is_same(next.span.lower())
        && next.span.lower_inc()
        && !slice.span.upper_inc()
        && takes_up(&slice.course, &next.course)
}

fn write_start<C: Course>(
    slice: &Slice<C>,
    epoch: &Epoch,
    into: &mut String,
) -> Result<(), AllocError>
where
    C::Base: BaseValue + Printed,
    ensures written { OnOk result (string_bytes into.new ≡ string_bytes into.old ++ start_text (style_of (course_of C.Course C.Base.is_same) C.Base.text epoch.now) slice.now) }
{
    write_instant::<C>(slice.course.start(), slice.span.lower(), epoch, into)
}

fn write_opening<C>(slice: &Slice<C>, into: &mut String) -> Result<(), AllocError>
    ensures written { OnOk result (string_bytes into.new ≡ string_bytes into.old ++ opening_text (slice.now ∷ [])) }
{
    if slice.span.lower_inc() {
        into.push_str("[")
    } else {
        into.push_str("(")
    }
}

fn write_closing<C>(slice: &Slice<C>, into: &mut String) -> Result<(), AllocError>
    ensures written { OnOk result (string_bytes into.new ≡ string_bytes into.old ++ closing_text (slice.now ∷ [])) }
{
    if slice.span.upper_inc() {
        into.push_str("]")
    } else {
        into.push_str(")")
    }
}

fn write_end<C: Course>(
    slice: &Slice<C>,
    epoch: &Epoch,
    into: &mut String,
) -> Result<(), AllocError>
where
    C::Base: BaseValue + Printed,
    ensures written { OnOk result (string_bytes into.new ≡ string_bytes into.old ++ end_part (style_of (course_of C.Course C.Base.is_same) C.Base.text epoch.now) slice.now) }
{
    if is_long(slice) {
        into.push_str(", ")?;
        write_instant::<C>(slice.course.end(), slice.span.upper(), epoch, into)?;
    }
    write_closing(slice, into)
}

fn write_between<C: Course>(
    slice: &Slice<C>,
    next: &Slice<C>,
    epoch: &Epoch,
    into: &mut String,
) -> Result<(), AllocError>
where
    C::Base: BaseValue + Printed,
    ensures written { OnOk result (string_bytes into.new ≡ string_bytes into.old ++ gap (style_of (course_of C.Course C.Base.is_same) C.Base.text epoch.now) slice.now next.now) }
{
    if shares_group(slice, next) {
        return into.push_str(", ");
    }
    write_end(slice, epoch, into)?;
    into.push_str(", ")?;
    write_opening(next, into)
}

/// Writes the groups, with commas between them.
fn write_groups<C: Course>(
    slices: &[Slice<C>],
    epoch: &Epoch,
    into: &mut String,
) -> Result<(), AllocError>
where
    C::Base: BaseValue + Printed,
    ensures written { OnOk result (string_bytes into.new ≡ string_bytes into.old ++ with_commas (map (group_text (style_of (course_of C.Course C.Base.is_same) C.Base.text epoch.now)) (neighbour_groups (course_of C.Course C.Base.is_same) slices.now))) }
{
    let [first, rest @ ..] = slices else {
        return Ok(());
    };
    write_opening(first, into)?;
    write_start(first, epoch, into)?;
    let mut last = first;
    for next in rest {
        write_between(last, next, epoch, into)?;
        write_start(next, epoch, into)?;
        last = next;
    }
    write_end(last, epoch, into)
}

/// Writes the instants at which the slices start, with commas between them.
fn write_starts<C: Course>(
    slices: &[Slice<C>],
    epoch: &Epoch,
    into: &mut String,
) -> Result<(), AllocError>
where
    C::Base: BaseValue + Printed,
    ensures written { OnOk result (string_bytes into.new ≡ string_bytes into.old ++ with_commas (map (start_text (style_of (course_of C.Course C.Base.is_same) C.Base.text epoch.now)) slices.now)) }
{
    let [first, rest @ ..] = slices else {
        return Ok(());
    };
    write_start(first, epoch, into)?;
    for next in rest {
        into.push_str(", ")?;
        write_start(next, epoch, into)?;
    }
    Ok(())
}

/// Whether each slice is a single instant.
fn is_set<C>(slices: &[Slice<C>]) -> bool
    ensures value { result ≡ list_all (λ s. not (long s)) slices.now }
{
    slices.iter().all(|slice| !is_long(slice))
}

/// Whether the slices are one group.
fn is_group<C: Course>(slices: &[Slice<C>]) -> bool
where
    C::Base: BaseValue,
    ensures value { result ≡ is_one_group (course_of C.Course C.Base.is_same) slices.now }
{
    match slices {
        [] => false,
        [_, ..] => all_neighbours(slices, shares_group),
    }
}

/// Writes a set of instants, or a single instant without braces.
fn write_set<C: Course>(
    slices: &[Slice<C>],
    epoch: &Epoch,
    into: &mut String,
) -> Result<(), AllocError>
where
    C::Base: BaseValue + Printed,
    ensures written { OnOk result (string_bytes into.new ≡ string_bytes into.old ++ set_text (style_of (course_of C.Course C.Base.is_same) C.Base.text epoch.now) slices.now) }
{
    match slices {
        [only] => write_start(only, epoch, into),
        _ => {
            into.push_str("{")?;
            write_starts(slices, epoch, into)?;
            into.push_str("}")
        }
    }
}

/// Writes one group alone, or several in braces.
fn write_sequences<C: Course>(
    slices: &[Slice<C>],
    epoch: &Epoch,
    into: &mut String,
) -> Result<(), AllocError>
where
    C::Base: BaseValue + Printed,
    ensures written { OnOk result (string_bytes into.new ≡ string_bytes into.old ++ groups_text (style_of (course_of C.Course C.Base.is_same) C.Base.text epoch.now) (neighbour_groups (course_of C.Course C.Base.is_same) slices.now)) }
{
    if is_group(slices) {
        return write_groups(slices, epoch, into);
    }
    into.push_str("{")?;
    write_groups(slices, epoch, into)?;
    into.push_str("}")
}

fn write_slices<C: Course>(
    slices: &[Slice<C>],
    epoch: &Epoch,
    into: &mut String,
) -> Result<(), AllocError>
where
    C::Base: BaseValue + Printed,
    ensures written { OnOk result (string_bytes into.new ≡ string_bytes into.old ++ moving_text (style_of (course_of C.Course C.Base.is_same) C.Base.text epoch.now) slices.now) }
{
    if is_set(slices) {
        write_set(slices, epoch, into)
    } else {
        write_sequences(slices, epoch, into)
    }
}

/// Appends the printed text of a temporal value. An error means that an allocation failed; `into`
/// is then unchanged.
pub fn write_moving<C: Course>(
    value: &Moving<C>,
    epoch: &Epoch,
    into: &mut String,
) -> Result<(), AllocError>
where
    C::Base: BaseValue + Printed,
    ensures written { OnOk result (string_bytes into.new ≡ string_bytes into.old ++ moving_text (style_of (course_of C.Course C.Base.is_same) C.Base.text epoch.now) value.now) }
    ensures unchanged { OnErr result (string_bytes into.new ≡ string_bytes into.old) }
{
    let mut text = String::new(*into.allocator());
    write_slices(value.slices(), epoch, &mut text)?;
    into.push_str(text.as_str())
}
