//! Copies temporal values.
ghost use Rattle.std.specs.Prelude.{◌≡◌, IfOk};

use mob_slice::{BaseValue, Course, Line, Moving, PlaneLine, Slice, Steady};
use std::alloc::{AllocError, Global};

/// A course that can be copied.
pub trait CopiedCourse: Course + Drop {
    /// A copy. An error means that an allocation failed.
    fn copy_course(&self, alloc: Global) -> Result<Self, AllocError>
        ensures same { IfOk result (λ copy. copy ≡ self.now) };
}

impl<B: BaseValue + Drop> CopiedCourse for Steady<B> {
    fn copy_course(&self, alloc: Global) -> Result<Self, AllocError> {
        Ok(Steady {
            value: self.value.copy(alloc)?,
        })
    }
}

impl CopiedCourse for Line {
    fn copy_course(&self, alloc: Global) -> Result<Self, AllocError> {
        Ok(*self)
    }
}

impl CopiedCourse for PlaneLine {
    fn copy_course(&self, alloc: Global) -> Result<Self, AllocError> {
        Ok(*self)
    }
}

fn copy_slice<C: CopiedCourse>(alloc: Global, slice: &Slice<C>) -> Result<Slice<C>, AllocError>
    ensures same { IfOk result (λ copy. copy ≡ slice.now) }
{
    Ok(Slice {
        span: slice.span,
        course: slice.course.copy_course(alloc)?,
    })
}

/// A copy of a temporal value. An error means that an allocation failed.
pub fn copy_moving<C: CopiedCourse>(
    alloc: Global,
    moving: &Moving<C>,
) -> Result<Moving<C>, AllocError>
    ensures same { IfOk result (λ copy. copy ≡ moving.now) }
{
    let slices = moving.slices();
    let mut copies = Vec::with_capacity(alloc, slices.len())?;
    for slice in slices {
        copies.push(copy_slice(alloc, slice)?)?;
    }
    Ok(Moving::from_normal(copies))
}
