//! The walk over the pieces of time that two lists share.
ghost use Rattle.std.specs.Prelude.{◌≡◌};
ghost use Rattle.std.specs.Iterator.{YieldsFirstBy, item_count};
ghost use Rattle.mob_span.specs.Pieces.{PiecesAreClear};
ghost use Rattle.mob_span.specs.Walk.{CanWalk, met_of, meets_left, lefts_of, rights_of};

use crate::span::Span;
use crate::spanned::Spanned;

/// A piece of time that two items share, with the two.
#[derive(Drop)]
pub struct Met<'a, X, Y> {
    /// The instants that they share.
    pub span: Span,
    /// The first.
    pub left: &'a X,
    /// The second.
    pub right: &'a Y,
}

/// The pieces of time that the entries of two lists share, in order of time. Both lists are in
/// order of time.
#[derive(Drop)]
pub struct SharedPieces<'a, X, Y> {
    lefts: &'a [X],
    rights: &'a [Y],
}

impl<'a, X: Spanned, Y: Spanned> SharedPieces<'a, X, Y> {
    /// The walk, at the first piece.
    pub fn new(lefts: &'a [X], rights: &'a [Y]) -> Self
        requires left_order { PiecesAreClear X.span_of lefts.now }
        requires right_order { PiecesAreClear Y.span_of rights.now }
        ensures can { CanWalk X.span_of Y.span_of result }
        ensures left { lefts_of result ≡ lefts.now }
        ensures right { rights_of result ≡ rights.now }
    {
        SharedPieces { lefts, rights }
    }

    /// The rest of the first list.
    pub fn lefts(&self) -> &'a [X]
        ensures same { result.now ≡ lefts_of self.now }
    {
        self.lefts
    }

    /// The rest of the second list.
    pub fn rights(&self) -> &'a [Y]
        ensures same { result.now ≡ rights_of self.now }
    {
        self.rights
    }
}

impl<'a, X: Spanned, Y: Spanned> Iterator for SharedPieces<'a, X, Y> {
    type Item = Met<'a, X, Y>;

    ghost can_next = { CanWalk X.span_of Y.span_of };

    ghost next_gives = { YieldsFirstBy met_of (meets_left X.span_of Y.span_of) };

    ghost remaining = { item_count (meets_left X.span_of Y.span_of) };

    fn next(&mut self) -> Option<Met<'a, X, Y>> {
        'walk: loop {
            let Some((left, lefts)) = self.lefts.split_first() else {
                return None;
            };
            let Some((right, rights)) = self.rights.split_first() else {
                return None;
            };
            let met = left.time().meet(right.time());
            if right.time().ends_before(left.time()) {
                self.rights = rights;
            } else {
                self.lefts = lefts;
            }
            if let Some(span) = met {
                return Some(Met { span, left, right });
            }
        }
    }
}
