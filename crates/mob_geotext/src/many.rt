//! Reads span sets from their texts.
ghost use Rattle.std.specs.Prelude.{◌≡◌, option_map, Option, IfOk};
ghost use Rattle.std.specs.List.{list_all};
ghost use Rattle.mob_language.specs.Readers.{all_of, separated_at as separated_in, within_blanks_at};
ghost use Rattle.mob_numeral.specs.Verdict.{Lit};
ghost use Rattle.mob_scalar.specs.Brackets.{comma_at as comma_in};
ghost use Rattle.mob_scalar.specs.Traverse.{traverse};
ghost use Rattle.mob_geotext.specs.Spans.{noted_span_at as noted_span_in, noted_spans_at as noted_spans_in, has_ends as both_there, has_many_ends as many_ends, sound_span, span_sets};

use crate::noted::{NotedSpan, has_ends, noted_span_at, span_of};
use mob_list::items::Items;
use mob_numeral::blanks;
use mob_scalar::{Epoch, ReadText, fitting_each, separated_at};
use mob_span::{Span, SpanSet};
use std::alloc::{AllocError, Global};

/// Reads spans with commas between them. Returns them and the rest of the text.
fn listed_at<'a>(
    alloc: Global,
    epoch: &Epoch,
    bytes: &'a [u8],
) -> Result<Option<(Vec<NotedSpan>, &'a [u8])>, AllocError>
    ensures read { IfOk result (λ o. option_map (λ x. (x.0.items, x.1.now)) o ≡ separated_in (noted_span_in epoch.now) comma_in bytes.now) }
{
    separated_at(alloc, |rest| Ok(noted_span_at(epoch, rest)), bytes)
}

/// Reads spans in braces. Returns them and the rest of the text.
#[tactic(auto, unfolding(crate::specs::Spans::noted_spans_at, mob_scalar::specs::Brackets::open_brace_at, mob_scalar::specs::Brackets::close_brace_at))]
fn noted_spans_at<'a>(
    alloc: Global,
    epoch: &Epoch,
    bytes: &'a [u8],
) -> Result<Option<(Vec<NotedSpan>, &'a [u8])>, AllocError>
    ensures read { IfOk result (λ o. option_map (λ x. (x.0.items, x.1.now)) o ≡ noted_spans_in epoch.now bytes.now) }
{
    let [123, rest @ ..] = bytes else {
        return Ok(None);
    };
    let Some((spans, rest)) = listed_at(alloc, epoch, blanks(rest).1)? else {
        return Ok(None);
    };
    match blanks(rest).1 {
        [125, rest @ ..] => Ok(Some((spans, rest))),
        _ => Ok(None),
    }
}

/// Reads all of the bytes as spans in braces with optional blanks at both ends.
fn noted_in_all(
    alloc: Global,
    epoch: &Epoch,
    bytes: &[u8],
) -> Result<Option<Items<NotedSpan>>, AllocError>
    ensures read { IfOk result (λ o. o ≡ all_of (within_blanks_at (noted_spans_in epoch.now)) bytes.now) }
{
    let Some((spans, rest)) = noted_spans_at(alloc, epoch, blanks(bytes).1)? else {
        return Ok(None);
    };
    match blanks(rest).1 {
        [] => Ok(Some(Items::from_vec(spans))),
        _ => Ok(None),
    }
}

/// Whether there are more than 100,000 ends.
fn has_many_ends(noted: &[NotedSpan]) -> bool
    ensures value { result ≡ many_ends noted.now }
{
    noted.len() > 50_000
}

/// Whether the ends of each span fit.
fn all_have_ends(noted: &[NotedSpan]) -> bool
    ensures value { result ≡ list_all both_there noted.now }
{
    noted.iter().all(|span| has_ends(span))
}

/// The spans; `None` if one of them has no instant, or an end that does not fit.
fn spans_of(alloc: Global, noted: Vec<NotedSpan>) -> Result<Option<Vec<Span>>, AllocError>
    ensures made { IfOk result (λ o. option_map (λ v. v.items) o ≡ traverse sound_span noted.items) }
{
    fitting_each(alloc, noted, |span| Ok(span_of(span)))
}

/// Reads a span set from its text, which has the form of MobilityDB. Instants are in seconds since
/// midnight UTC of the epoch day.
///
/// A span set is one or more spans in braces, with commas between them. They may overlap and be in
/// any order. The faults, in this order: `NotText` for any other text, `Limit` if the spans have
/// more than 100,000 ends, `TooLarge` if an end has more than 62 bits, and `Unsound` if a span has
/// no instant. `NoMemory` if an allocation fails.
pub fn read_span_set(alloc: Global, text: &str, epoch: &Epoch) -> Result<SpanSet, ReadText>
    ensures reading { Lit (span_sets epoch.now) text.now result }
{
    let noted = match noted_in_all(alloc, epoch, text.as_bytes()) {
        Ok(Some(noted)) => noted,
        Ok(None) => return Err(ReadText::NotText),
        Err(_) => return Err(ReadText::NoMemory),
    };
    if has_many_ends(noted.as_slice()) {
        return Err(ReadText::Limit);
    }
    if !all_have_ends(noted.as_slice()) {
        return Err(ReadText::TooLarge);
    }
    let spans = match spans_of(alloc, noted.into_vec()) {
        Ok(Some(spans)) => spans,
        Ok(None) => return Err(ReadText::Unsound),
        Err(_) => return Err(ReadText::NoMemory),
    };
    match SpanSet::of(alloc, spans) {
        Ok(set) => Ok(set),
        Err(_) => Err(ReadText::NoMemory),
    }
}
