//! The walk over all instants at which one of two temporal values is defined.

ghost use Rattle.std.specs.Prelude.{◌≡◌, true, false, [], ◌∷◌, Some, option_map, IfSome, MatchOption};
ghost use Rattle.mob_span.specs.Meet.{meet_of};
ghost use Rattle.mob_span.specs.Remainders.{back_of};
ghost use Rattle.mob_span.specs.Span.{has_instant};
ghost use Rattle.mob_span.specs.Pieces.{PiecesAreClear};
ghost use Rattle.mob_shares.specs.Cuts.{wholes, head_of, left_after};
ghost use Rattle.mob_shares.specs.Begins.{BeginTogether, EndTogether};
ghost use Rattle.mob_shares.specs.Sharing.{next_share, behind_piece};
ghost use Rattle.mob_shares.specs.Shares.{cut_of, rest_of, share_span, share_of, HoldsShare, CanShare, GivesShare, shares_left};

use mob_slice::{Course, One, Pair, Part, Slice};
use mob_span::Span;

fn is_like(a: bool, b: bool) -> bool
    ensures like { result ≡ true → a ≡ b }
{
    a == b
}

// Whether two spans begin at the same instant, which both include or both exclude.
fn begin_together(a: &Span, b: &Span) -> bool
    ensures together { result ≡ true → BeginTogether a.now b.now }
{
    if !a.lower().is_same(b.lower()) {
        return false;
    }
    is_like(a.lower_inc(), b.lower_inc())
}

// Whether two spans end at the same instant, which both include or both exclude.
fn end_together(a: &Span, b: &Span) -> bool
    ensures together { result ≡ true → EndTogether a.now b.now }
{
    if !a.upper().is_same(b.upper()) {
        return false;
    }
    is_like(a.upper_inc(), b.upper_inc())
}

// The intersection of two spans that begin together: the one that ends first.
fn shorter(a: &Span, b: &Span) -> Span
    requires together { BeginTogether a.now b.now }
    ensures meet { result ≡ meet_of a.now b.now }
{
    if a.ends_before(b) {
        return *a;
    }
    *b
}

// The part of a span after another that begins with it.
fn back_of_longer(span: &Span, first: &Span) -> Option<Span>
    requires together { BeginTogether first.now span.now }
    ensures ends { IfSome result (λ p. p ≡ back_of span.now first.now) }
    ensures test { MatchOption result (has_instant (back_of span.now first.now) ≡ false) (λ p. has_instant p ≡ true) }
{
    Span::new(
        *first.upper(),
        *span.upper(),
        !first.upper_inc(),
        span.upper_inc(),
    )
}

// The part of a span after another, as `back` returns it. Most often the two begin or end together.
fn back(span: &Span, first: &Span) -> Option<Span>
    ensures ends { IfSome result (λ p. p ≡ back_of span.now first.now) }
    ensures test { MatchOption result (has_instant (back_of span.now first.now) ≡ false) (λ p. has_instant p ≡ true) }
{
    if end_together(span, first) {
        return None;
    }
    if begin_together(first, span) {
        return back_of_longer(span, first);
    }
    span.back(first)
}

// The rest of the slices of a value: all but the first are whole.
#[derive(Drop)]
pub struct Rest<'a, C> {
    slices: &'a [Slice<C>],
    // the rest of the first, if it is not whole
    first: Option<Span>,
}

impl<'a, C> Rest<'a, C> {
    fn new(slices: &'a [Slice<C>]) -> Self
        ensures all { rest_of result ≡ wholes (λ s. s.span) slices.now }
    {
        Rest {
            slices,
            first: None,
        }
    }

    // The first slice with the rest of its span.
    fn first(&self) -> Option<One<'a, C>>
        ensures first { option_map cut_of result ≡ head_of (rest_of self.now) }
    {
        let Some((slice, _)) = self.slices.split_first() else {
            return None;
        };
        match self.first {
            Some(span) => Some(One { span, slice }),
            None => Some(One {
                span: slice.span,
                slice,
            }),
        }
    }

    // The rest after a span with which the first slice begins.
    fn after(&self, span: &Span) -> Self
        ensures after { rest_of result ≡ left_after span.now (rest_of self.now) }
    {
        let Some((slice, rest)) = self.slices.split_first() else {
            return Rest::new(self.slices);
        };
        let back = match self.first {
            Some(first) => back(&first, span),
            None => back(&slice.span, span),
        };
        match back {
            Some(back) => Rest {
                slices: self.slices,
                first: Some(back),
            },
            None => Rest::new(rest),
        }
    }
}

/// A piece of time at which one of two values has a slice, or both have.
#[derive(Drop)]
pub enum Share<'a, C> {
    /// The first value alone.
    Left(One<'a, C>),
    /// The second value alone.
    Right(One<'a, C>),
    /// Both.
    Both(Pair<'a, C, C>),
}

impl<'a, C: Course> Part for Share<'a, C> {
    ghost span_of = { share_span };

    ghost fits = { λ p. HoldsShare C.start_of C.end_of (share_of p) };

    fn span(&self) -> &Span {
        match self {
            Share::Left(one) => &one.span,
            Share::Right(one) => &one.span,
            Share::Both(pair) => &pair.span,
        }
    }
}

// The piece with which two lists of slices begin: the part of one's first slice before that of the
// other, or the part with which both begin.
fn first_share<'a, C>(left: &One<'a, C>, right: &One<'a, C>) -> Share<'a, C>
    requires left { has_instant left.now.span ≡ true }
    requires right { has_instant right.now.span ≡ true }
    ensures next { next_share (cut_of left.now ∷ []) (cut_of right.now ∷ []) ≡ Some (share_of result) }
{
    if begin_together(&left.span, &right.span) {
        let span = shorter(&left.span, &right.span);
        return Share::Both(Pair {
            span,
            left: left.slice,
            right: right.slice,
        });
    }
    if let Some(span) = left.span.front(&right.span) {
        return Share::Left(One {
            span,
            slice: left.slice,
        });
    }
    if let Some(span) = right.span.front(&left.span) {
        return Share::Right(One {
            span,
            slice: right.slice,
        });
    }
    let Some(span) = left.span.meet(&right.span) else {
        unreachable!()
    };
    Share::Both(Pair {
        span,
        left: left.slice,
        right: right.slice,
    })
}

/// The pieces of time at which one of two values has a slice, or both have, in order of time.
#[derive(Drop)]
pub struct Shares<'a, C> {
    lefts: Rest<'a, C>,
    rights: Rest<'a, C>,
}

impl<'a, C> Shares<'a, C> {
    /// The walk, at the first piece.
    pub fn new(lefts: &'a [Slice<C>], rights: &'a [Slice<C>]) -> Self
        requires left_order { PiecesAreClear (λ s. s.span) lefts.now }
        requires right_order { PiecesAreClear (λ s. s.span) rights.now }
        ensures can { CanShare result }
        ensures left { rest_of result.lefts ≡ wholes (λ s. s.span) lefts.now }
        ensures right { rest_of result.rights ≡ wholes (λ s. s.span) rights.now }
    {
        Shares {
            lefts: Rest::new(lefts),
            rights: Rest::new(rights),
        }
    }

    // The next piece, if any is left.
    fn peek(&self) -> Option<Share<'a, C>>
        requires can { CanShare self.now }
        ensures next { option_map share_of result ≡ next_share (rest_of self.now.lefts) (rest_of self.now.rights) }
    {
        let Some(left) = self.lefts.first() else {
            let Some(right) = self.rights.first() else {
                return None;
            };
            return Some(Share::Right(right));
        };
        let Some(right) = self.rights.first() else {
            return Some(Share::Left(left));
        };
        Some(first_share(&left, &right))
    }

    // Removes a piece from each of the two values that has a slice in it.
    fn pass(&mut self, share: &Share<'a, C>)
        ensures left { rest_of self.new.lefts ≡ behind_piece (share_span share.now) (share_of share.now).left (rest_of self.old.lefts) }
        ensures right { rest_of self.new.rights ≡ behind_piece (share_span share.now) (share_of share.now).right (rest_of self.old.rights) }
    {
        match share {
            Share::Left(one) => self.lefts = self.lefts.after(&one.span),
            Share::Right(one) => self.rights = self.rights.after(&one.span),
            Share::Both(pair) => {
                self.lefts = self.lefts.after(&pair.span);
                self.rights = self.rights.after(&pair.span);
            }
        }
    }
}

impl<'a, C> Iterator for Shares<'a, C> {
    type Item = Share<'a, C>;

    ghost can_next = { CanShare };

    ghost next_gives = { GivesShare };

    ghost remaining = { shares_left };

    fn next(&mut self) -> Option<Share<'a, C>> {
        let Some(share) = self.peek() else {
            return None;
        };
        self.pass(&share);
        Some(share)
    }
}
