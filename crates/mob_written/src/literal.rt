//! Reads temporal literals, as written.
ghost use Rattle.std.specs.Prelude.{◌≡◌, ℕ, map, option_map, List, [], Option, Some, None, IfOk, Bool, true, ◌&&◌, not};
ghost use Rattle.mob_language.specs.Readers.{all_of, means_at};
ghost use Rattle.mob_written.specs.Literal.{alone as alone_of, one_sequence, one_instant, noted_at as noted_in, instants_at as instants_in, sequence_at as sequence_in, sequences_at as sequences_in, members_at as members_in, braced_at as braced_in, temporal_literal_at, prefixed_at as prefixed_in, temporal_at as temporal_in};
ghost use Rattle.mob_written.specs.Prefix.{admitted};
ghost use Rattle.mob_written.specs.ValueText.{IsValueText};

use crate::prefix::prefixes_at;
use crate::written::{Literal, Noted, Prefixes, Sequence};
use mob_frac::Frac;
use mob_list::items::Items;
use mob_scalar::{
    Epoch, blanks, closing_at, instant_of, moment_at, opening_at, separated_at, spaced_at,
};
use mob_slice::BaseValue;
use std::alloc::{AllocError, Global};

/// The texts of the values of a temporal type.
pub trait WrittenValue {
    /// The base type of the values.
    type Base: BaseValue + Drop;

    /// The texts of values, each with its value; `None` if a number does not fit.
    ghost shape: { List ℕ → Option Self.Base → Type 0 };

    /// The reader of these texts: the value at the front, and the rest of the text.
    ghost reader: { List ℕ → Option (Option Self.Base × List ℕ) };

    /// Whether `SRID=0;` may come before a literal.
    const HAS_SRID: bool;

    ghost HAS_SRID: { Bool };

    /// What may follow a text.
    ghost follows: { List ℕ → Type 0 };

    /// Whether the type has this value.
    ghost has_value: { Self.Base → Bool };

    /// Reads the value at the front. Returns it, if it fits, and the rest of the text. An error
    /// means that an allocation failed.
    fn value_at(
        alloc: Global,
        bytes: &[u8],
    ) -> Result<Option<(Option<Self::Base>, &[u8])>, AllocError>
        ensures read { IfOk result (λ o. option_map (λ x. (x.0, x.1.now)) o ≡ reader bytes.now) };

    /// Whether the type has this value.
    fn has_value(value: &Self::Base) -> bool
        ensures exact { result ≡ has_value value.now };

    ghost exact: { IsValueText shape reader follows };
}

/// Reads a value, `@` and a moment. Returns them and the rest of the text.
#[tactic(auto, unfolding(crate::specs::Literal::noted_at, crate::specs::Literal::at_sign_at))]
fn noted_at<'a, T: WrittenValue>(
    alloc: Global,
    epoch: &Epoch,
    bytes: &'a [u8],
) -> Result<Option<(Noted<T::Base>, &'a [u8])>, AllocError>
    ensures read { IfOk result (λ o. option_map (λ x. (x.0, x.1.now)) o ≡ noted_in epoch.now T.reader bytes.now) }
{
    let Some((value, rest)) = T::value_at(alloc, bytes)? else {
        return Ok(None);
    };
    let Some(rest) = spaced_at(b'@', rest) else {
        return Ok(None);
    };
    let Some((stamp, rest)) = moment_at(rest) else {
        return Ok(None);
    };
    let noted = Noted {
        value,
        instant: instant_of(stamp, epoch),
    };
    Ok(Some((noted, rest)))
}

type Instants<B> = Vec<Noted<B>>;

/// Reads instants with commas between them. Returns them and the rest of the text.
#[tactic(auto, unfolding(crate::specs::Literal::instants_at))]
fn instants_at<'a, T: WrittenValue>(
    alloc: Global,
    epoch: &Epoch,
    bytes: &'a [u8],
) -> Result<Option<(Instants<T::Base>, &'a [u8])>, AllocError>
    ensures read { IfOk result (λ o. option_map (λ x. (x.0.items, x.1.now)) o ≡ instants_in (noted_in epoch.now T.reader) bytes.now) }
{
    separated_at(alloc, |rest| noted_at::<T>(alloc, epoch, rest), bytes)
}

/// Reads a sequence. Returns it and the rest of the text.
#[tactic(auto, unfolding(crate::specs::Literal::sequence_at))]
fn sequence_at<'a, T: WrittenValue>(
    alloc: Global,
    epoch: &Epoch,
    bytes: &'a [u8],
) -> Result<Option<(Sequence<Noted<T::Base>>, &'a [u8])>, AllocError>
    ensures read { IfOk result (λ o. option_map (λ x. (x.0, x.1.now)) o ≡ sequence_in (noted_in epoch.now T.reader) bytes.now) }
{
    let Some((bracket, rest)) = opening_at(bytes) else {
        return Ok(None);
    };
    let Some((instants, rest)) = instants_at::<T>(alloc, epoch, rest)? else {
        return Ok(None);
    };
    let Some((close, rest)) = closing_at(rest) else {
        return Ok(None);
    };
    let sequence = Sequence {
        lower_inc: bracket == 91,
        instants: Items::from_vec(instants),
        upper_inc: close == 93,
    };
    Ok(Some((sequence, rest)))
}

type Sequences<B> = Vec<Sequence<Noted<B>>>;

/// Reads sequences with commas between them. Returns them and the rest of the text.
#[tactic(auto, unfolding(crate::specs::Literal::sequences_at))]
fn sequences_at<'a, T: WrittenValue>(
    alloc: Global,
    epoch: &Epoch,
    bytes: &'a [u8],
) -> Result<Option<(Sequences<T::Base>, &'a [u8])>, AllocError>
    ensures read { IfOk result (λ o. option_map (λ x. (x.0.items, x.1.now)) o ≡ sequences_in (noted_in epoch.now T.reader) bytes.now) }
{
    separated_at(alloc, |rest| sequence_at::<T>(alloc, epoch, rest), bytes)
}

/// The sequence of a single instant.
fn alone<A: Drop>(alloc: Global, instant: A) -> Result<Sequence<A>, AllocError>
    ensures made { IfOk result (λ q. q ≡ alone_of instant) }
{
    let mut instants = Items::new(alloc);
    instants.push(instant)?;
    Ok(Sequence {
        lower_inc: true,
        instants,
        upper_inc: true,
    })
}

/// The sequences of single instants.
fn each_alone<A: Drop>(alloc: Global, instants: Vec<A>) -> Result<Vec<Sequence<A>>, AllocError>
    ensures made { IfOk result (λ v. v.items ≡ map alone_of instants.items) }
{
    let mut sequences = Vec::new(alloc);
    for instant in instants {
        sequences.push(alone(alloc, instant)?)?;
    }
    Ok(sequences)
}

/// Reads the sequences or instants inside braces.
#[tactic(auto, unfolding(crate::specs::Literal::members_at))]
fn members_at<'a, T: WrittenValue>(
    alloc: Global,
    epoch: &Epoch,
    bytes: &'a [u8],
) -> Result<Option<(Sequences<T::Base>, &'a [u8])>, AllocError>
    ensures read { IfOk result (λ o. option_map (λ x. (x.0.items, x.1.now)) o ≡ members_in (noted_in epoch.now T.reader) bytes.now) }
{
    if let Some(found) = sequences_at::<T>(alloc, epoch, bytes)? {
        return Ok(Some(found));
    }
    match instants_at::<T>(alloc, epoch, bytes)? {
        Some((instants, rest)) => Ok(Some((each_alone(alloc, instants)?, rest))),
        None => Ok(None),
    }
}

#[tactic(auto, unfolding(crate::specs::Literal::braced_at, mob_scalar::specs::Brackets::open_brace_at, mob_scalar::specs::Brackets::close_brace_at))]
fn braced_at<'a, T: WrittenValue>(
    alloc: Global,
    epoch: &Epoch,
    bytes: &'a [u8],
) -> Result<Option<(Sequences<T::Base>, &'a [u8])>, AllocError>
    ensures read { IfOk result (λ o. option_map (λ x. (x.0.items, x.1.now)) o ≡ braced_in (noted_in epoch.now T.reader) bytes.now) }
{
    let [123, rest @ ..] = bytes else {
        return Ok(None);
    };
    let Some((sequences, rest)) = members_at::<T>(alloc, epoch, blanks(rest).1)? else {
        return Ok(None);
    };
    match blanks(rest).1 {
        [125, rest @ ..] => Ok(Some((sequences, rest))),
        _ => Ok(None),
    }
}

/// Reads one sequence, as a list of sequences.
fn one_sequence_at<'a, T: WrittenValue>(
    alloc: Global,
    epoch: &Epoch,
    bytes: &'a [u8],
) -> Result<Option<(Sequences<T::Base>, &'a [u8])>, AllocError>
    ensures read { IfOk result (λ o. option_map (λ x. (x.0.items, x.1.now)) o ≡ means_at one_sequence (sequence_in (noted_in epoch.now T.reader)) bytes.now) }
{
    let Some((sequence, rest)) = sequence_at::<T>(alloc, epoch, bytes)? else {
        return Ok(None);
    };
    let mut sequences = Vec::new(alloc);
    sequences.push(sequence)?;
    Ok(Some((sequences, rest)))
}

/// Reads one instant, as a list of sequences.
fn one_instant_at<'a, T: WrittenValue>(
    alloc: Global,
    epoch: &Epoch,
    bytes: &'a [u8],
) -> Result<Option<(Sequences<T::Base>, &'a [u8])>, AllocError>
    ensures read { IfOk result (λ o. option_map (λ x. (x.0.items, x.1.now)) o ≡ means_at one_instant (noted_in epoch.now T.reader) bytes.now) }
{
    let Some((instant, rest)) = noted_at::<T>(alloc, epoch, bytes)? else {
        return Ok(None);
    };
    let mut sequences = Vec::new(alloc);
    sequences.push(alone(alloc, instant)?)?;
    Ok(Some((sequences, rest)))
}

#[tactic(auto, unfolding(crate::specs::Literal::temporal_literal_at))]
fn sequences_of<'a, T: WrittenValue>(
    alloc: Global,
    epoch: &Epoch,
    bytes: &'a [u8],
) -> Result<Option<(Sequences<T::Base>, &'a [u8])>, AllocError>
    ensures read { IfOk result (λ o. option_map (λ x. (x.0.items, x.1.now)) o ≡ temporal_literal_at (noted_in epoch.now T.reader) bytes.now) }
{
    if let Some(found) = braced_at::<T>(alloc, epoch, bytes)? {
        return Ok(Some(found));
    }
    if let Some(found) = one_sequence_at::<T>(alloc, epoch, bytes)? {
        return Ok(Some(found));
    }
    one_instant_at::<T>(alloc, epoch, bytes)
}

/// Whether a prefix was read: it was admitted and is no longer allowed.
fn is_said(admitted: bool, left: bool) -> bool
    ensures value { result ≡ (admitted && not left) }
{
    admitted && !left
}

/// Reads a literal with its prefixes. Returns it and the rest of the text. `Interp=Step;` is
/// allowed unless the courses are steady.
#[tactic(auto, unfolding(crate::specs::Literal::prefixed_at))]
fn prefixed_at<'a, T: WrittenValue>(
    alloc: Global,
    epoch: &Epoch,
    steady: bool,
    bytes: &'a [u8],
) -> Result<Option<(Literal<Noted<T::Base>>, &'a [u8])>, AllocError>
    ensures read { IfOk result (λ o. option_map (λ x. (x.0, x.1.now)) o ≡ prefixed_in (admitted steady T.HAS_SRID) (noted_in epoch.now T.reader) bytes.now) }
{
    let step = !steady;
    let srid = T::HAS_SRID;
    let Some((left, rest)) = prefixes_at(Prefixes { step, srid }, bytes) else {
        return Ok(None);
    };
    let says_step = is_said(step, left.step);
    let Some((sequences, rest)) = sequences_of::<T>(alloc, epoch, rest)? else {
        return Ok(None);
    };
    let literal = Literal {
        says_step,
        sequences: Items::from_vec(sequences),
    };
    Ok(Some((literal, rest)))
}

/// Reads all of the bytes as a literal, as written. `None` if they are not the text of one. An
/// error means that an allocation failed.
#[tactic(auto, unfolding(crate::specs::Literal::temporal_at))]
pub fn literal_of<T: WrittenValue>(
    alloc: Global,
    epoch: &Epoch,
    steady: bool,
    bytes: &[u8],
) -> Result<Option<Literal<Noted<T::Base>>>, AllocError>
    ensures read { IfOk result (λ o. o ≡ all_of (temporal_in (admitted steady T.HAS_SRID) (noted_in epoch.now T.reader)) bytes.now) }
{
    let Some((literal, rest)) = prefixed_at::<T>(alloc, epoch, steady, blanks(bytes).1)? else {
        return Ok(None);
    };
    match blanks(rest).1 {
        [] => Ok(Some(literal)),
        _ => Ok(None),
    }
}
