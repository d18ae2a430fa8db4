//! The walk over the common pieces of two temporal values.
ghost use Rattle.std.specs.Prelude.{◌≡◌};
ghost use Rattle.std.specs.Iterator.{YieldsFirstBy, item_count};
ghost use Rattle.std.specs.List.{AllByRecursion};
ghost use Rattle.mob_span.specs.Meets.{shared_pieces, AreCommon};
ghost use Rattle.mob_span.specs.Pieces.{PiecesAreClear};
ghost use Rattle.mob_lift.specs.Common.{CanAdvance, HoldsPair, pair_of, common_left};

use mob_slice::{Course, Moving, Pair, Slice};
use mob_span::SharedPieces;

/// The common pieces of two temporal values, in order of time: exactly the pieces that a slice of
/// one and a slice of the other share. They have exactly the instants at which both have a value,
/// each with the slices there.
#[derive(Drop)]
pub struct Common<'a, A, B> {
    walk: SharedPieces<'a, Slice<A>, Slice<B>>,
}

impl<'a, A: Course, B: Course> Common<'a, A, B> {
    /// The walk, at the first common piece.
    pub fn new(a: &'a Moving<A>, b: &'a Moving<B>) -> Self
        ensures can { CanAdvance result }
        ensures clear { PiecesAreClear (λ p. p.span) (common_left result) }
        ensures hold { AllByRecursion (HoldsPair A.start_of A.end_of B.start_of B.end_of) (common_left result) }
        ensures all { common_left result ≡ shared_pieces (λ s. s.span) (λ s. s.span) a.now b.now }
        ensures common { AreCommon (λ s. s.span) (λ s. s.span) a.now b.now (common_left result) }
    {
        Common {
            walk: SharedPieces::new(a.slices(), b.slices()),
        }
    }
}

impl<'a, A: Course, B: Course> Iterator for Common<'a, A, B> {
    type Item = Pair<'a, A, B>;

    ghost can_next = { CanAdvance };

    ghost next_gives = { YieldsFirstBy pair_of common_left };

    ghost remaining = { item_count common_left };

    fn next(&mut self) -> Option<Pair<'a, A, B>> {
        let Some(met) = self.walk.next() else {
            return None;
        };
        Some(Pair {
            span: met.span,
            left: met.left,
            right: met.right,
        })
    }
}
