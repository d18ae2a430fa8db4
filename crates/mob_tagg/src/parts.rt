//! Many values, united two by two.
ghost use Rattle.std.specs.Prelude.{◌≡◌, IfOk};
ghost use Rattle.mob_ratio.specs.Ratio.{Ratio};
ghost use Rattle.mob_slice.specs.Slices.{value_at};
ghost use Rattle.mob_tagg.specs.United.{united_by, AreUnited};
ghost use Rattle.mob_tagg.specs.Gathered.{IsAssociative, united_parts, whole_at};

use mob_slice::{Course, Moving};
use std::alloc::{AllocError, Global};

/// An associative operation that unites two values of a course.
pub trait Uniting<C: Course> {
    ghost op: { C.Base → C.Base → C.Base };

    /// The union of two values. The only error is a failed allocation.
    fn unite(alloc: Global, a: &Moving<C>, b: &Moving<C>) -> Result<Moving<C>, AllocError>
        ensures united { IfOk result (λ r. AreUnited C.value_of op a.now b.now r) };

    ghost law: { IsAssociative op };
}

/// The union of `count` values.
#[derive(Drop)]
pub struct Part<C: Course> {
    count: u32,
    value: Moving<C>,
}

/// Adds a part of `count` values after the others. Parts of equally many values are united, so that
/// few are left. The only error is a failed allocation.
pub fn with_value<C: Course + Drop, U: Uniting<C>>(
    alloc: Global,
    parts: Vec<Part<C>>,
    count: u32,
    value: Moving<C>,
) -> Result<Vec<Part<C>>, AllocError>
    ensures same { IfOk result (λ r. (t : Ratio) → united_parts U.op C.value_of r.items t ≡ united_by U.op (united_parts U.op C.value_of parts.items t) (value_at C.value_of value t)) }
{
    let mut parts = parts;
    let Some(top) = parts.pop() else {
        parts.push(Part { count, value })?;
        return Ok(parts);
    };
    if top.count != count {
        parts.push(top)?;
        parts.push(Part { count, value })?;
        return Ok(parts);
    }
    let both = U::unite(alloc, &top.value, &value)?;
    with_value::<C, U>(alloc, parts, count.saturating_add(count), both)
}

/// The union of all parts and of `last`. `None` exactly if both are missing. The only error is a
/// failed allocation.
pub fn gathered<C: Course + Drop, U: Uniting<C>>(
    alloc: Global,
    parts: Vec<Part<C>>,
    last: Option<Moving<C>>,
) -> Result<Option<Moving<C>>, AllocError>
    ensures same { IfOk result (λ r. (t : Ratio) → whole_at C.value_of r t ≡ united_by U.op (united_parts U.op C.value_of parts.items t) (whole_at C.value_of last t)) }
{
    let mut parts = parts;
    let Some(top) = parts.pop() else {
        return Ok(last);
    };
    match last {
        None => gathered::<C, U>(alloc, parts, Some(top.value)),
        Some(value) => {
            let both = U::unite(alloc, &top.value, &value)?;
            gathered::<C, U>(alloc, parts, Some(both))
        }
    }
}
