//! The normal form of a list of slices.
ghost use Rattle.std.specs.Prelude.{◌≡◌, ◌↔◌, [], IfOk, IsOk, IfSome, IsNone};
ghost use Rattle.mob_ratio.specs.Ratio.{Ratio};
ghost use Rattle.mob_slice.specs.Slices.{IsNormal, IsRisingInTime, value_at};

use crate::normal::joined::{Merged, join, stay};
use mob_slice::{Course, Moving, Slice};
use std::alloc::{AllocError, Global};

/// The normal value of a list of slices that are ordered and disjoint, or `None` exactly for the
/// empty list.
///
/// It has the same value at every instant, also at those that no `Frac` represents. Nothing
/// overflows: slices are compared and joined, and no value between their ends is computed. The only
/// error is a failed allocation; the empty list allocates nothing.
pub fn normal<C: Course + Drop>(
    alloc: Global,
    slices: Vec<Slice<C>>,
) -> Result<Option<Moving<C>>, AllocError>
where
    C::Base: Drop,
    requires ordered { IsRisingInTime C.start_of C.end_of slices.items }
    ensures none { IfOk result (λ m. IsNone m ↔ (slices.items ≡ [])) }
    ensures memory { slices.items ≡ [] → IsOk result }
    ensures normal { IfOk result (λ m. IfSome m (λ m. IsNormal C.start_of C.end_of C.is_continued m)) }
    ensures same { IfOk result (λ m. IfSome m (λ m. (t : Ratio) → value_at C.value_of m t ≡ value_at C.value_of slices.items t)) }
{
    let mut rest = slices.into_iter();
    let Some(mut last) = rest.next() else {
        return Ok(None);
    };
    let mut done = Vec::new(alloc);
    for next in rest {
        if stay(&last, &next) {
            done.push(last)?;
            last = next;
            continue;
        }
        match join(alloc, last, next)? {
            Merged::One(slice) => last = slice,
            Merged::Two(slice, other) => {
                done.push(slice)?;
                last = other;
            }
        }
    }
    done.push(last)?;
    Ok(Some(Moving::from_normal(done)))
}
