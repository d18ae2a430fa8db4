//! The value of a slice at an instant, kept for the next piece: two neighbours share an instant.
ghost use Rattle.std.specs.Prelude.{◌≡◌, true};
ghost use Rattle.mob_ratio.specs.Order.{up_to};
ghost use Rattle.mob_slice.specs.Cut.{slice_value, slice_parts};
ghost use Rattle.mob_slice.specs.Look.{IsLooked};
ghost use Rattle.mob_lift.specs.Found.{IsFound, IsFoundOn};

use crate::walks::alike::are_alike;
use mob_frac::Frac;
use mob_list::fault::Fault;
use mob_slice::{Course, Formula, Slice, limit};
use std::alloc::Global;
use std::marker::Model;

/// The value of a slice at an instant.
#[derive(Drop)]
pub struct Found<C: Course> {
    slice: Slice<C>,
    at: Frac,
    value: C,
}

impl<C: Course> Model for Found<C> {
    ghost use Rattle.mob_lift.specs.Found.{FoundOf, IsFound};

    ghost Value = { FoundOf C };

    ghost view = { λ f. record { slice = f.slice; at = f.at; value = f.value } };

    ghost invariant = { λ f. IsFound C.value_of C.end_of C.parts_of (record { slice = f.slice; at = f.at; value = f.value }) };
}

impl<C: Course> Found<C> {
    /// The value of the slice at the instant, with which the course `value` ends.
    pub fn new(slice: Slice<C>, at: Frac, value: C) -> Self
        requires found { IsFoundOn C.value_of C.end_of C.parts_of slice at value }
        ensures parts { result ≡ record { slice = slice; at = at; value = value } }
    {
        Found { slice, at, value }
    }

    /// The course that ends with the value.
    pub fn value(&self) -> &C
        ensures same { result.now ≡ self.now.value }
    {
        &self.value
    }

    // Whether it is the value of this slice at this instant.
    fn is_of(&self, slice: &Slice<C>, t: &Frac) -> bool
        ensures value { result ≡ true → IsFoundOn C.value_of C.end_of C.parts_of slice.now t.now self.now.value }
    {
        // Reading a field gives the proof the invariant.
        let _value = &self.value;
        if !self.at.is_same(t) {
            return false;
        }
        are_alike(slice, &self.slice)
    }
}

/// The value of a slice at an instant, as `limit` returns it. It is copied if it is the one that
/// was found.
pub fn limit_found<C: Course>(
    alloc: Global,
    slice: &Slice<C>,
    t: &Frac,
    found: &Found<C>,
) -> Result<C::Base, Fault<Formula>>
    requires after { up_to slice.now.span.lower t.now ≡ true }
    requires until { up_to t.now slice.now.span.upper ≡ true }
    ensures value { IsLooked C.copy_allocates (slice_parts C.parts_of slice.now t.now) (slice_value C.value_of slice.now t.now) result }
{
    if !found.is_of(slice, t) {
        return limit(alloc, slice, t);
    }
    Ok(C::copy_base(alloc, found.value().end())?)
}
