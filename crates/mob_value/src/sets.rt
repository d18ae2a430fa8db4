//! Span sets of one span.
ghost use Rattle.std.specs.Prelude.{◌≡◌, [], ◌∷◌, IfOk};

use mob_span::{Span, SpanSet};
use std::alloc::{AllocError, Global};

/// The set of the instants of one span. The only error is a failed allocation.
pub fn one_span(alloc: Global, span: &Span) -> Result<SpanSet, AllocError>
    ensures same { IfOk result (λ set. set ≡ span.now ∷ []) }
{
    // The clause of this call says that the span has an instant.
    let _ = span.lower();
    let mut spans = Vec::new(alloc);
    spans.push(*span)?;
    match SpanSet::of(alloc, spans) {
        Ok(set) => Ok(set),
        Err(fault) => Err(fault),
    }
}
