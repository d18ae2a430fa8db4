//! The walk over the slices of one temporal value.
ghost use Rattle.std.specs.Prelude.{◌≡◌};
ghost use Rattle.std.specs.Iterator.{YieldsFirstBy, item_count};
ghost use Rattle.std.specs.List.{AllByRecursion};
ghost use Rattle.mob_span.specs.Pieces.{PiecesAreClear};
ghost use Rattle.mob_lift.specs.Ones.{CanWalkOne, HoldsOne, span_and_slice, ones_left, whole_slices};

use mob_slice::{Course, Moving, One, Slice};

/// The pieces of one temporal value, in order of time: exactly its slices, each on its whole span.
#[derive(Drop)]
pub struct Ones<'a, C> {
    slices: &'a [Slice<C>],
}

impl<'a, C: Course> Ones<'a, C> {
    /// The walk, at the first piece.
    pub fn new(a: &'a Moving<C>) -> Self
        ensures can { CanWalkOne result }
        ensures clear { PiecesAreClear (λ p. p.0) (ones_left result) }
        ensures hold { AllByRecursion (HoldsOne C.start_of C.end_of) (ones_left result) }
        ensures all { ones_left result ≡ whole_slices a.now }
    {
        Ones { slices: a.slices() }
    }
}

impl<'a, C: Course> Iterator for Ones<'a, C> {
    type Item = One<'a, C>;

    ghost can_next = { CanWalkOne };

    ghost next_gives = { YieldsFirstBy span_and_slice ones_left };

    ghost remaining = { item_count ones_left };

    fn next(&mut self) -> Option<One<'a, C>> {
        let Some((slice, slices)) = self.slices.split_first() else {
            return None;
        };
        self.slices = slices;
        Some(One {
            span: slice.span,
            slice,
        })
    }
}
