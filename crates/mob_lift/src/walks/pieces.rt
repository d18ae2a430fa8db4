//! The walk over the pieces of two operands.
ghost use Rattle.std.specs.Prelude.{◌≡◌};
ghost use Rattle.std.specs.Iterator.{YieldsFirstBy, item_count};
ghost use Rattle.std.specs.List.{AllByRecursion};
ghost use Rattle.mob_span.specs.Pieces.{PiecesAreClear};
ghost use Rattle.mob_slice.specs.Sides.{operand_of, pieces, piece_of, HoldsPiece};
ghost use Rattle.mob_lift.specs.Pieces.{CanGo, pieces_left};

use crate::walks::common::Common;
use crate::walks::ones::Ones;
use mob_slice::{Course, Operand, Piece, Side};

// The walk over a temporal value, next to a base value.
#[derive(Drop)]
struct Beside<'a, C, B> {
    walk: Ones<'a, C>,
    base: &'a B,
}

// The walk over the temporal operands.
#[derive(Drop)]
enum Walk<'a, A: Course, B: Course> {
    // Both are temporal values.
    Both(Common<'a, A, B>),
    // Only the first is.
    Left(Beside<'a, A, B::Base>),
    // Only the second is.
    Right(Beside<'a, B, A::Base>),
    // Neither is.
    Neither,
}

/// The pieces of two operands, in order of time: those that two temporal values share, or each
/// slice of one, next to a base value.
#[derive(Drop)]
pub struct Pieces<'a, A: Course, B: Course> {
    walk: Walk<'a, A, B>,
}

impl<'a, A: Course, B: Course> Pieces<'a, A, B> {
    /// The walk, at the first piece.
    pub fn new(a: Operand<'a, A>, b: Operand<'a, B>) -> Self
        ensures can { CanGo result }
        ensures all { pieces_left result ≡ pieces (operand_of a.entry) (operand_of b.entry) }
        ensures clear { PiecesAreClear (λ p. p.span) (pieces_left result) }
        ensures hold { AllByRecursion (HoldsPiece A.start_of A.end_of B.start_of B.end_of) (pieces_left result) }
    {
        match a {
            Operand::Moving(left) => match b {
                Operand::Moving(right) => Pieces {
                    walk: Walk::Both(Common::new(left, right)),
                },
                Operand::Fixed(base) => Pieces {
                    walk: Walk::Left(Beside {
                        walk: Ones::new(left),
                        base,
                    }),
                },
            },
            Operand::Fixed(base) => match b {
                Operand::Moving(right) => Pieces {
                    walk: Walk::Right(Beside {
                        walk: Ones::new(right),
                        base,
                    }),
                },
                Operand::Fixed(_) => Pieces {
                    walk: Walk::Neither,
                },
            },
        }
    }
}

impl<'a, A: Course, B: Course> Iterator for Pieces<'a, A, B> {
    type Item = Piece<'a, A, B>;

    ghost can_next = { CanGo };

    ghost next_gives = { YieldsFirstBy piece_of pieces_left };

    ghost remaining = { item_count pieces_left };

    fn next(&mut self) -> Option<Piece<'a, A, B>> {
        match &mut self.walk {
            Walk::Both(walk) => {
                let Some(pair) = walk.next() else {
                    return None;
                };
                Some(Piece {
                    span: pair.span,
                    left: Side::Moving(pair.left),
                    right: Side::Moving(pair.right),
                })
            }
            Walk::Left(beside) => {
                let Some(one) = beside.walk.next() else {
                    return None;
                };
                Some(Piece {
                    span: one.span,
                    left: Side::Moving(one.slice),
                    right: Side::Fixed(beside.base),
                })
            }
            Walk::Right(beside) => {
                let Some(one) = beside.walk.next() else {
                    return None;
                };
                Some(Piece {
                    span: one.span,
                    left: Side::Fixed(beside.base),
                    right: Side::Moving(one.slice),
                })
            }
            Walk::Neither => None,
        }
    }
}
