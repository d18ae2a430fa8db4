//! The results of a comparison of two courses on a span, in numbers of any size. Two numbers, and
//! two points that are tested for equality, change at one instant at most inside a span.
ghost use Rattle.std.specs.List.{AllByRecursion};
ghost use Rattle.std.specs.Prelude.{◌≡◌, ◌∷◌, [], ◌&&◌, true, false, IfOk};
ghost use Rattle.mob_ratio.specs.Order.{before, same};
ghost use Rattle.mob_ratio.specs.Sign.{nil, opposite};
ghost use Rattle.mob_slice.specs.Ranks.{holds};
ghost use Rattle.mob_cells.specs.Coordinates.{as_gaps};
ghost use Rattle.mob_cells.specs.Gaps.{gap_ends};
ghost use Rattle.mob_cells.specs.Roots.{IsLevel};
ghost use Rattle.mob_cells.specs.Turnings.{IsMeeting, IsTurning, level, order_by, shares_root, sign_between};

use crate::coordinates::Coordinates;
use crate::shared::share_root;
use mob_slice::Rel;
use mob_span::{Span, same_bool};
use mob_wide::{Broad, are_opposite, root_within};
use std::alloc::{AllocError, Global};
use std::cmp::Ordering;

/// An instant inside a span at which the result of a comparison changes.
#[derive(Drop)]
pub struct Turn {
    /// The instant.
    pub at: Broad,
    /// The result at the instant.
    pub there: bool,
    /// The result after it.
    pub after: bool,
}

/// The results of a comparison on a span.
#[derive(Drop)]
pub struct Turning {
    /// The result at the lower end.
    pub at_lower: bool,
    /// The result behind the lower end.
    pub first: bool,
    /// The instant inside at which it changes, if there is one.
    pub turn: Option<Turn>,
    /// The result at the upper end.
    pub at_upper: bool,
}

// When two linear functions are both 0, strictly between the ends of a span.
#[derive(Drop)]
enum Meeting {
    // At no instant.
    Never,
    // At each.
    Always,
    // At one.
    Once(Broad),
}

// Results that do not change inside the span.
fn level(at_lower: bool, inside: bool, at_upper: bool) -> Turning
    ensures level { result ≡ level at_lower inside at_upper }
{
    Turning {
        at_lower,
        first: inside,
        turn: None,
        at_upper,
    }
}

// The sign between two ends whose signs are not opposite.
fn sign_between(f: &Broad, g: &Broad) -> Ordering
    ensures value { result ≡ sign_between f.now g.now }
{
    if f.is_zero() {
        return g.sign();
    }
    f.sign()
}

// The results by one gap, from `f` to `g`.
fn one_turning(
    alloc: Global,
    span: &Span,
    rel: Rel,
    f: &Broad,
    g: &Broad,
) -> Result<Turning, AllocError>
    requires level { before span.now.lower span.now.upper ≡ false → f.now ≡ g.now }
    ensures turning { IfOk result (IsTurning span.now (record { at_lower = f.now; at_upper = g.now } ∷ []) rel) }
{
    let low = f.sign();
    let high = g.sign();
    let at_lower = rel.holds(low);
    let at_upper = rel.holds(high);
    if !are_opposite(f, g) {
        let between = sign_between(f, g);
        let inside = rel.holds(between);
        return Ok(level(at_lower, inside, at_upper));
    }
    let there = rel.holds(Ordering::Equal);
    let at = root_within(alloc, f, g, span.lower(), span.upper())?;
    Ok(Turning {
        at_lower,
        first: at_lower,
        turn: Some(Turn {
            at,
            there,
            after: at_upper,
        }),
        at_upper,
    })
}

// Whether both numbers are 0.
fn are_zero(x: &Broad, y: &Broad) -> bool
    ensures value { result ≡ (same x.now nil && same y.now nil) }
{
    if !x.is_zero() {
        return false;
    }
    y.is_zero()
}

// The order of two points with these gaps: Equal if both are 0, and otherwise Less.
fn order_by(x: &Broad, y: &Broad) -> Ordering
    ensures value { result ≡ order_by x.now y.now }
{
    if are_zero(x, y) {
        return Ordering::Equal;
    }
    Ordering::Less
}

// Whether the function from `e` to `h` is 0 at the root of the one from `f` to `g`.
fn shares_root(
    alloc: Global,
    f: &Broad,
    g: &Broad,
    e: &Broad,
    h: &Broad,
) -> Result<bool, AllocError>
    ensures value { IfOk result (λ b. b ≡ shares_root f.now g.now e.now h.now) }
{
    if are_zero(e, h) {
        return Ok(true);
    }
    share_root(alloc, f, g, e, h)
}

// When a function from `f` to `g` that crosses 0, and one from `e` to `h`, are both 0.
fn meeting_of(
    alloc: Global,
    span: &Span,
    f: &Broad,
    g: &Broad,
    e: &Broad,
    h: &Broad,
) -> Result<Meeting, AllocError>
    requires crosses { opposite f.now g.now ≡ true }
    requires level { before span.now.lower span.now.upper ≡ false → f.now ≡ g.now }
    ensures meeting { IfOk result (IsMeeting span.now (record { at_lower = f.now; at_upper = g.now }) (record { at_lower = e.now; at_upper = h.now })) }
{
    let shared = shares_root(alloc, f, g, e, h)?;
    if !shared {
        return Ok(Meeting::Never);
    }
    let at = root_within(alloc, f, g, span.lower(), span.upper())?;
    Ok(Meeting::Once(at))
}

// When the functions from `f` to `g` and from `e` to `h` are both 0.
fn meeting_on(
    alloc: Global,
    span: &Span,
    f: &Broad,
    g: &Broad,
    e: &Broad,
    h: &Broad,
) -> Result<Meeting, AllocError>
    requires first { before span.now.lower span.now.upper ≡ false → f.now ≡ g.now }
    requires second { before span.now.lower span.now.upper ≡ false → e.now ≡ h.now }
    ensures meeting { IfOk result (IsMeeting span.now (record { at_lower = f.now; at_upper = g.now }) (record { at_lower = e.now; at_upper = h.now })) }
{
    if are_opposite(f, g) {
        return meeting_of(alloc, span, f, g, e, h);
    }
    if !are_zero(f, g) {
        return Ok(Meeting::Never);
    }
    if are_zero(e, h) {
        return Ok(Meeting::Always);
    }
    if !are_opposite(e, h) {
        return Ok(Meeting::Never);
    }
    let at = root_within(alloc, e, h, span.lower(), span.upper())?;
    Ok(Meeting::Once(at))
}

// The results by two gaps, from `f` to `g` and from `e` to `h`.
fn two_turning(
    alloc: Global,
    span: &Span,
    rel: Rel,
    f: &Broad,
    g: &Broad,
    e: &Broad,
    h: &Broad,
) -> Result<Turning, AllocError>
    requires first { before span.now.lower span.now.upper ≡ false → f.now ≡ g.now }
    requires second { before span.now.lower span.now.upper ≡ false → e.now ≡ h.now }
    ensures turning { IfOk result (IsTurning span.now (record { at_lower = f.now; at_upper = g.now } ∷ record { at_lower = e.now; at_upper = h.now } ∷ []) rel) }
{
    let low = order_by(f, e);
    let high = order_by(g, h);
    let at_lower = rel.holds(low);
    let at_upper = rel.holds(high);
    let apart = rel.holds(Ordering::Less);
    let there = rel.holds(Ordering::Equal);
    if same_bool(apart, there) {
        return Ok(level(at_lower, there, at_upper));
    }
    let when = meeting_on(alloc, span, f, g, e, h)?;
    match when {
        Meeting::Never => Ok(level(at_lower, apart, at_upper)),
        Meeting::Always => Ok(level(at_lower, there, at_upper)),
        Meeting::Once(at) => Ok(Turning {
            at_lower,
            first: apart,
            turn: Some(Turn {
                at,
                there,
                after: apart,
            }),
            at_upper,
        }),
    }
}

// The results for courses without gaps: the two values are taken as equal.
fn without_gaps(rel: Rel) -> Turning
    ensures level { result ≡ level (holds rel Ordering.Equal) (holds rel Ordering.Equal) (holds rel Ordering.Equal) }
{
    let same = rel.holds(Ordering::Equal);
    level(same, same, same)
}

/// The results of a comparison on a span, by the gaps at its two ends. The only error is a failed
/// allocation.
pub fn turning_on(
    alloc: Global,
    span: &Span,
    rel: Rel,
    lower: &Coordinates,
    upper: &Coordinates,
) -> Result<Turning, AllocError>
    requires level { AllByRecursion (IsLevel span.now) (gap_ends (as_gaps lower.now) (as_gaps upper.now)) }
    ensures turning { IfOk result (IsTurning span.now (gap_ends (as_gaps lower.now) (as_gaps upper.now)) rel) }
{
    match lower {
        Coordinates::Steady => Ok(without_gaps(rel)),
        Coordinates::One(f) => match upper {
            Coordinates::Steady => Ok(without_gaps(rel)),
            Coordinates::One(g) => one_turning(alloc, span, rel, f, g),
            Coordinates::Two(_, _) => Ok(without_gaps(rel)),
        },
        Coordinates::Two(f, e) => match upper {
            Coordinates::Steady => Ok(without_gaps(rel)),
            Coordinates::One(_) => Ok(without_gaps(rel)),
            Coordinates::Two(g, h) => two_turning(alloc, span, rel, f, g, e, h),
        },
    }
}
