//! The instants at which a temporal value is defined.
ghost use Rattle.std.specs.Prelude.{◌≡◌, IfOk, is_some};
ghost use Rattle.mob_ratio.specs.Ratio.{Ratio};
ghost use Rattle.mob_span.specs.Sets.{in_some, IsSpanSet};
ghost use Rattle.mob_slice.specs.Slices.{value_at};

use mob_slice::{Course, Moving};
use mob_span::SpanSet;
use std::alloc::{AllocError, Global};

/// The instants at which a temporal value is defined (MobilityDB's `getTime`). The only error is a
/// failed allocation.
pub fn get_time<C: Course>(alloc: Global, a: &Moving<C>) -> Result<SpanSet, AllocError>
    ensures same { IfOk result (λ set. (t : Ratio) → in_some set t ≡ is_some (value_at C.value_of a.now t)) }
    ensures normal { IfOk result (λ set. IsSpanSet set) }
{
    let mut spans = Vec::new(alloc);
    let slices = a.slices();
    for slice in slices {
        spans.push(slice.span)?;
    }
    SpanSet::of(alloc, spans)
}
