//! The instants at which a temporal boolean is true.
ghost use Rattle.std.specs.Prelude.{◌≡◌, ◌↔◌, false, IfOk, IfSome, IsNone};
ghost use Rattle.mob_ratio.specs.Ratio.{Ratio};
ghost use Rattle.mob_span.specs.Sets.{in_some};
ghost use Rattle.mob_slice.specs.Operands.{steady_value};
ghost use Rattle.mob_slice.specs.Slices.{value_at};
ghost use Rattle.mob_compare.specs.Times.{is_true};

use mob_slice::{Moving, Steady};
use mob_span::SpanSet;
use std::alloc::{AllocError, Global};

/// The instants at which a temporal boolean is true (MobilityDB's `whenTrue`). `None` exactly if no
/// such instant exists. The only error is a failed allocation.
pub fn when_true(alloc: Global, a: &Moving<Steady<bool>>) -> Result<Option<SpanSet>, AllocError>
    ensures none { IfOk result (λ r. IsNone r ↔ ((t : Ratio) → is_true (value_at steady_value a.now t) ≡ false)) }
    ensures same { IfOk result (λ r. IfSome r (λ set. (t : Ratio) → in_some set t ≡ is_true (value_at steady_value a.now t))) }
{
    let mut spans = Vec::new(alloc);
    let slices = a.slices();
    for slice in slices {
        if slice.course.value {
            spans.push(slice.span)?;
        }
    }
    if spans.is_empty() {
        return Ok(None);
    }
    Ok(Some(SpanSet::of(alloc, spans)?))
}
