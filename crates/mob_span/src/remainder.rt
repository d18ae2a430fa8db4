//! The rest of a span without other spans.

ghost use Rattle.std.specs.Prelude.{◌≡◌, true, [], IfOk, MatchOption};
ghost use Rattle.std.specs.List.{AllByRecursion};
ghost use Rattle.mob_span.specs.Neighbours.{is_inside};
ghost use Rattle.mob_span.specs.Pieces.{PiecesAreClear};
ghost use Rattle.mob_span.specs.Remainders.{remainders_of, AreRemainders};

use crate::span::Span;
use crate::spanned::Spanned;
use std::alloc::{AllocError, Global};

/// The instants of a span that are in none of the given spans, in order of time. The given spans
/// are in order too. The only error is a failed allocation.
pub fn remainders(alloc: Global, span: &Span, spans: &[Span]) -> Result<Vec<Span>, AllocError>
    requires order { PiecesAreClear (λ s. s) spans.now }
    ensures instants { IfOk result (λ v. AreRemainders span.now spans.now v.items) }
    ensures order { IfOk result (λ v. PiecesAreClear (λ s. s) v.items) }
    ensures ends { IfOk result (λ v. v.items ≡ remainders_of span.now spans.now) }
{
    // A method call gives the proof the invariant of a span.
    let _ = span.lower();
    left_by(alloc, span, spans)
}

// The rest of the span without the spans, from the first of them on.
fn left_by(alloc: Global, span: &Span, spans: &[Span]) -> Result<Vec<Span>, AllocError>
    ensures ends { IfOk result (λ v. v.items ≡ remainders_of span.now spans.now) }
{
    // A method call gives the proof the invariant of a span.
    let _ = span.lower();
    let mut found = Vec::new(alloc);
    let mut rest = *span;
    for next in spans {
        if let Some(front) = rest.front(next) {
            found.push(front)?;
        }
        match rest.back(next) {
            Some(back) => rest = back,
            None => return Ok(found),
        }
    }
    found.push(rest)?;
    Ok(found)
}

/// A span that includes all items, which are in order of time: from the start of the first to the
/// end of the last. `None` exactly if there are no items.
pub fn whole<X: Spanned>(items: &[X]) -> Option<Span>
    requires order { PiecesAreClear X.span_of items.now }
    ensures holds { MatchOption result (items.now ≡ []) (λ h. AllByRecursion (λ x. is_inside h (X.span_of x) ≡ true) items.now) }
{
    let Some((first, _)) = items.split_first() else {
        return None;
    };
    let Some((last, _)) = items.split_last() else {
        return None;
    };
    let start = first.time();
    let end = last.time();
    Span::new(
        *start.lower(),
        *end.upper(),
        start.lower_inc(),
        end.upper_inc(),
    )
}
