//! Reads temporal literals, and makes their slices.
ghost use Rattle.std.specs.Prelude.{◌≡◌, option_map, Option, Some, None, Ok, Err, IfOk, true, false};
ghost use Rattle.std.specs.List.{list_all};
ghost use Rattle.mob_numeral.specs.Verdict.{Lit};
ghost use Rattle.mob_literal.specs.Sound.{is_over_limit, written_of as written_in, fitting_sequence as fitting_in, fitting_all as all_fitting, clear_ends as ends_clear, is_before as precedes, are_in_order as in_order, fitting_literal as fitting_in_literal, written_literals, literals};
ghost use Rattle.mob_literal.specs.Sequences.{is_step as is_step_in};
ghost use Rattle.mob_written.specs.Prefix.{admitted};
ghost use Rattle.mob_slice.specs.CourseOf.{course_of};
ghost use Rattle.mob_literal.specs.Flat.{made_sequence, made_all};

use crate::slicing::slices_of;
use mob_lift::normal::normal;
use mob_list::items::Items;
use mob_scalar::{Epoch, ReadText, fitting_each};
use mob_slice::{Course, Moving, Slice};
use mob_written::written::{Literal, Noted, Sequence, Written};
use mob_written::{WrittenValue, all_neighbours, literal_of};
use std::alloc::{AllocError, Global};

/// Whether the sequences have more than 100,000 instants.
fn is_long<A>(sequences: &[Sequence<A>]) -> bool
    ensures value { result ≡ is_over_limit sequences.now }
{
    let mut count = 0;
    for sequence in sequences {
        if sequence.instants.len() > 100_000 - count {
            return true;
        }
        count += sequence.instants.len();
    }
    false
}

/// The value at the instant; `None` if either does not fit.
fn written_of<B: Drop>(noted: Noted<B>) -> Option<Written<B>>
    ensures value { result ≡ written_in noted }
{
    let Noted { value, instant } = noted;
    let value = value?;
    let instant = instant?;
    Some(Written { value, instant })
}

fn fitting_sequence<B: Drop>(
    alloc: Global,
    sequence: Sequence<Noted<B>>,
) -> Result<Option<Sequence<Written<B>>>, AllocError>
    ensures fitting { IfOk result (λ o. o ≡ fitting_in sequence) }
{
    let Sequence {
        lower_inc,
        instants,
        upper_inc,
    } = sequence;
    let each = |noted| Ok(written_of(noted));
    let Some(fitting) = fitting_each(alloc, instants.into_vec(), each)? else {
        return Ok(None);
    };
    Ok(Some(Sequence {
        lower_inc,
        instants: Items::from_vec(fitting),
        upper_inc,
    }))
}

/// The sequences; `None` if one of their numbers does not fit.
fn fitting_all<B: Drop>(
    alloc: Global,
    sequences: Vec<Sequence<Noted<B>>>,
) -> Result<Option<Vec<Sequence<Written<B>>>>, AllocError>
    ensures fitting { IfOk result (λ o. option_map (λ v. v.items) o ≡ all_fitting sequences.items) }
{
    fitting_each(
        alloc,
        sequences,
        |sequence| fitting_sequence(alloc, sequence),
    )
}

fn clear_ends<B>(upper_inc: bool, lower_inc: bool, end: &Written<B>, start: &Written<B>) -> bool
    ensures value { result ≡ ends_clear upper_inc lower_inc (Some end.now) (Some start.now) }
{
    end.instant.is_before(&start.instant)
        || (!start.instant.is_before(&end.instant) && !(upper_inc && lower_inc))
}

/// Whether one sequence ends before another begins.
fn is_before<B>(sequence: &Sequence<Written<B>>, next: &Sequence<Written<B>>) -> bool
    ensures value { result ≡ precedes sequence.now next.now }
{
    let Some(end) = sequence.instants.as_slice().last() else {
        return false;
    };
    let Some(start) = next.instants.as_slice().first() else {
        return false;
    };
    clear_ends(sequence.upper_inc, next.lower_inc, end, start)
}

/// Whether each sequence ends before the next one begins.
fn are_in_order<B>(sequences: &[Sequence<Written<B>>]) -> bool
    ensures value { result ≡ in_order sequences.now }
{
    all_neighbours(sequences, is_before)
}

fn has_values<T: WrittenValue>(instants: &[Written<T::Base>]) -> bool
    ensures value { result ≡ list_all (λ i. T.has_value i.value) instants.now }
{
    instants.iter().all(|instant| T::has_value(&instant.value))
}

/// The slices of a sequence; `None` if it is unsound.
fn sequence_slices<T: WrittenValue, C: Course<Base = T::Base> + Drop>(
    alloc: Global,
    step: bool,
    sequence: Sequence<Written<T::Base>>,
) -> Result<Option<Vec<Slice<C>>>, AllocError>
    requires moves { step ≡ false → C.STEADY ≡ false }
    ensures made { IfOk result (λ o. option_map (λ v. v.items) o ≡ made_sequence T.has_value (course_of C.Course T.Base.is_same) step sequence) }
{
    let Sequence {
        lower_inc,
        instants,
        upper_inc,
    } = sequence;
    if !has_values::<T>(instants.as_slice()) {
        return Ok(None);
    }
    slices_of::<C>(alloc, step, lower_inc, instants.into_vec(), upper_inc)
}

/// The slices of all sequences; `None` if one of them is unsound.
fn all_slices<T: WrittenValue, C: Course<Base = T::Base> + Drop>(
    alloc: Global,
    step: bool,
    sequences: Vec<Sequence<Written<T::Base>>>,
) -> Result<Option<Vec<Slice<C>>>, AllocError>
    requires moves { step ≡ false → C.STEADY ≡ false }
    ensures made { IfOk result (λ o. option_map (λ v. v.items) o ≡ made_all T.has_value (course_of C.Course T.Base.is_same) step sequences.items) }
{
    let mut all = Vec::new(alloc);
    for sequence in sequences {
        let Some(mut slices) = sequence_slices::<T, C>(alloc, step, sequence)? else {
            return Ok(None);
        };
        all.append(&mut slices)?;
    }
    Ok(Some(all))
}

/// The literal; `None` if one of its numbers does not fit.
fn fitting_literal<B: Drop>(
    alloc: Global,
    literal: Literal<Noted<B>>,
) -> Result<Option<Literal<Written<B>>>, AllocError>
    ensures fitting { IfOk result (λ o. o ≡ fitting_in_literal literal) }
{
    let Literal {
        says_step,
        sequences,
    } = literal;
    match fitting_all(alloc, sequences.into_vec())? {
        Some(fitting) => Ok(Some(Literal {
            says_step,
            sequences: Items::from_vec(fitting),
        })),
        None => Ok(None),
    }
}

/// Reads a literal, as written, of a type whose courses are steady or not.
///
/// The faults, in this order: `NotText` if the text is not a literal, `Limit` if it has more than
/// 100,000 instants, and `TooLarge` if a value or an instant does not fit. `NoMemory` if an
/// allocation fails.
fn read_written<T: WrittenValue>(
    alloc: Global,
    text: &str,
    epoch: &Epoch,
    steady: bool,
) -> Result<Literal<Written<T::Base>>, ReadText>
    ensures reading { Lit (written_literals epoch.now (admitted steady T.HAS_SRID) T.shape) text.now result }
{
    let noted = match literal_of::<T>(alloc, epoch, steady, text.as_bytes()) {
        Ok(Some(noted)) => noted,
        Ok(None) => return Err(ReadText::NotText),
        Err(_) => return Err(ReadText::NoMemory),
    };
    if is_long(noted.sequences.as_slice()) {
        return Err(ReadText::Limit);
    }
    match fitting_literal(alloc, noted) {
        Ok(Some(written)) => Ok(written),
        Ok(None) => Err(ReadText::TooLarge),
        Err(_) => Err(ReadText::NoMemory),
    }
}

/// Whether a literal has step interpolation: by its prefix, or because the courses of its type are
/// steady.
fn is_step(steady: bool, says_step: bool) -> bool
    ensures value { result ≡ is_step_in steady says_step }
    ensures moves { result ≡ false → steady ≡ false }
{
    if says_step { true } else { steady }
}

/// The slices of a literal; `None` if one of its sequences is unsound.
fn literal_slices<T: WrittenValue, C: Course<Base = T::Base> + Drop>(
    alloc: Global,
    literal: Literal<Written<T::Base>>,
) -> Result<Option<Vec<Slice<C>>>, AllocError>
    ensures made { IfOk result (λ o. option_map (λ v. v.items) o ≡ made_all T.has_value (course_of C.Course T.Base.is_same) (is_step_in C.STEADY literal.says_step) literal.sequences) }
{
    let Literal {
        says_step,
        sequences,
    } = literal;
    let step = is_step(C::STEADY, says_step);
    all_slices::<T, C>(alloc, step, sequences.into_vec())
}

/// Reads a temporal value from its literal. Instants are in seconds since midnight UTC of the epoch
/// day.
///
/// The faults, in this order:
/// - `NotText`: the text is not a literal.
/// - `Limit`: it has more than 100,000 instants.
/// - `TooLarge`: a value or an instant does not fit.
/// - `Unsound`: the type does not have one of the values; the instants of a sequence are not
///   strictly increasing; a sequence of one instant excludes an end; a sequence with step
///   interpolation that excludes its upper end does not keep its value up to there; or two
///   sequences are out of order or share an instant.
///
/// `NoMemory` if an allocation fails.
pub fn read_moving<T: WrittenValue, C: Course<Base = T::Base> + Drop>(
    alloc: Global,
    text: &str,
    epoch: &Epoch,
) -> Result<Moving<C>, ReadText>
    ensures reading { Lit (literals epoch.now T.HAS_SRID T.shape T.has_value (course_of C.Course T.Base.is_same)) text.now result }
{
    let written = read_written::<T>(alloc, text, epoch, C::STEADY)?;
    if !are_in_order(written.sequences.as_slice()) {
        return Err(ReadText::Unsound);
    }
    let slices = match literal_slices::<T, C>(alloc, written) {
        Ok(Some(slices)) => slices,
        Ok(None) => return Err(ReadText::Unsound),
        Err(_) => return Err(ReadText::NoMemory),
    };
    match normal(alloc, slices) {
        Ok(Some(value)) => Ok(value),
        Ok(None) => Err(ReadText::Unsound),
        Err(_) => Err(ReadText::NoMemory),
    }
}
