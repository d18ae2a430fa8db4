//! The signs that linear functions take on a span, by their values at its ends. No root is
//! computed.
ghost use Rattle.std.specs.Prelude.{◌≡◌, ◌≢◌, ◌||◌};
ghost use Rattle.mob_ratio.specs.Ratio.{◌/ℚ◌};
ghost use Rattle.mob_ratio.specs.Order.{same};
ghost use Rattle.mob_ratio.specs.Sign.{nil, opposite};
ghost use Rattle.mob_span.specs.Flags.{same_bool};
ghost use Rattle.mob_slice.specs.Ranks.{holds};
ghost use Rattle.mob_compare.specs.Taken.{sign_is, takes_inside, takes_sign, is_nil_line, nil_inside, both_nil};
ghost use Rattle.mob_compare.specs.Met.{line_between, one_meets, two_meet, gaps_meet};

use mob_cells::Ends;
use mob_frac::{Frac, Wide, same_ratio};
use mob_slice::{Gaps, Rel};
use mob_span::Span;
use std::cmp::Ordering;

// Whether the number is 0.
fn is_nil(number: &Frac) -> bool
    ensures value { result ≡ same number.now nil }
{
    number.is_same(&Frac::zero())
}

// Whether the number has this sign.
fn sign_is(sign: Ordering, number: &Frac) -> bool
    ensures value { result ≡ sign_is sign number.now }
{
    match sign {
        Ordering::Less => number.is_before(&Frac::zero()),
        Ordering::Equal => is_nil(number),
        Ordering::Greater => Frac::zero().is_before(number),
    }
}

// Whether one of the two is below 0 and the other above.
#[tactic(auto, unfolding(mob_ratio::specs::Sign::opposite))]
fn are_opposite(from: &Frac, to: &Frac) -> bool
    ensures value { result ≡ opposite from.now to.now }
{
    let zero = Frac::zero();
    (from.is_before(&zero) && zero.is_before(to)) || (zero.is_before(from) && to.is_before(&zero))
}

// Whether the function takes this sign strictly between its ends.
fn takes_inside(ends: &Ends, sign: Ordering) -> bool
    ensures value { result ≡ takes_inside ends.now.at_lower ends.now.at_upper sign }
{
    let (from, to) = (&ends.at_lower, &ends.at_upper);
    match sign {
        Ordering::Less => from.is_before(&Frac::zero()) || to.is_before(&Frac::zero()),
        Ordering::Equal => are_opposite(from, to) || (is_nil(from) && is_nil(to)),
        Ordering::Greater => Frac::zero().is_before(from) || Frac::zero().is_before(to),
    }
}

// Whether the function takes this sign at some instant of the span.
fn takes_sign(span: &Span, ends: &Ends, sign: Ordering) -> bool
    ensures value { result ≡ takes_sign span.now ends.now sign }
{
    if !span.is_long() {
        return sign_is(sign, &ends.at_lower);
    }
    takes_inside(ends, sign)
        || (span.lower_inc() && sign_is(sign, &ends.at_lower))
        || (span.upper_inc() && sign_is(sign, &ends.at_upper))
}

// Whether the function is 0 from end to end.
fn is_nil_line(ends: &Ends) -> bool
    ensures value { result ≡ is_nil_line ends.now }
{
    is_nil(&ends.at_lower) && is_nil(&ends.at_upper)
}

// Whether `a / b` equals `c / d`.
fn in_one_ratio(a: &Frac, b: &Frac, c: &Frac, d: &Frac) -> bool
    requires left { b.now ≢ nil }
    requires right { d.now ≢ nil }
    ensures same { result ≡ same (a.now /ℚ b.now) (c.now /ℚ d.now) }
{
    let zero = Frac::zero();
    same_ratio(
        &Wide::difference(a, &zero),
        &Wide::difference(b, &zero),
        &Wide::difference(c, &zero),
        &Wide::difference(d, &zero),
    )
}

// Whether both functions are 0 at one instant strictly between their ends.
fn nil_inside(f: &Ends, e: &Ends) -> bool
    ensures value { result ≡ nil_inside f.now e.now }
{
    if !takes_inside(f, Ordering::Equal) || !takes_inside(e, Ordering::Equal) {
        return false;
    }
    if is_nil_line(f) || is_nil_line(e) {
        return true;
    }
    in_one_ratio(&f.at_lower, &f.at_upper, &e.at_lower, &e.at_upper)
}

// Whether both functions are 0 at one instant of the span.
fn both_nil(span: &Span, f: &Ends, e: &Ends) -> bool
    ensures value { result ≡ both_nil span.now f.now e.now }
{
    if !span.is_long() {
        return is_nil(&f.at_lower) && is_nil(&e.at_lower);
    }
    nil_inside(f, e)
        || (span.lower_inc() && is_nil(&f.at_lower) && is_nil(&e.at_lower))
        || (span.upper_inc() && is_nil(&f.at_upper) && is_nil(&e.at_upper))
}

// Whether the comparison has the wanted result for two values in this order.
fn is_as_wanted(rel: Rel, want: bool, order: Ordering) -> bool
    ensures value { result ≡ same_bool (holds rel order) want }
{
    rel.holds(order) == want
}

// Whether the comparison has the wanted result at some instant of the span, for courses with this
// one gap.
fn one_meets(span: &Span, rel: Rel, want: bool, f: &Ends) -> bool
    ensures value { result ≡ one_meets (λ o. same_bool (holds rel o) want) span.now f.now }
{
    (is_as_wanted(rel, want, Ordering::Less) && takes_sign(span, f, Ordering::Less))
        || (is_as_wanted(rel, want, Ordering::Equal) && takes_sign(span, f, Ordering::Equal))
        || (is_as_wanted(rel, want, Ordering::Greater) && takes_sign(span, f, Ordering::Greater))
}

// Whether one of the two functions is not 0 at some instant of the span.
fn some_apart(span: &Span, f: &Ends, e: &Ends) -> bool
    ensures value { result ≡ (takes_sign span.now f.now Ordering.Less || takes_sign span.now f.now Ordering.Greater || takes_sign span.now e.now Ordering.Less || takes_sign span.now e.now Ordering.Greater) }
{
    takes_sign(span, f, Ordering::Less)
        || takes_sign(span, f, Ordering::Greater)
        || takes_sign(span, e, Ordering::Less)
        || takes_sign(span, e, Ordering::Greater)
}

// Whether the comparison has the wanted result at some instant of the span, for courses with these
// two gaps, of points.
fn two_meet(span: &Span, rel: Rel, want: bool, f: &Ends, e: &Ends) -> bool
    ensures value { result ≡ two_meet (λ o. same_bool (holds rel o) want) span.now f.now e.now }
{
    (is_as_wanted(rel, want, Ordering::Equal) && both_nil(span, f, e))
        || (is_as_wanted(rel, want, Ordering::Less) && some_apart(span, f, e))
}

// The line from one value at the lower end to another at the upper end.
fn line_between(at_lower: Frac, at_upper: Frac) -> Ends
    ensures line { result ≡ line_between at_lower at_upper }
{
    Ends { at_lower, at_upper }
}

/// Whether the comparison has the wanted result at some instant of the span, for courses with the
/// first gaps at its lower end and the second at its upper one.
pub fn gaps_meet(span: &Span, rel: Rel, want: bool, lower: &Gaps, upper: &Gaps) -> bool
    ensures value { result ≡ gaps_meet (λ o. same_bool (holds rel o) want) span.now lower.now upper.now }
{
    match *lower {
        Gaps::Constant => is_as_wanted(rel, want, Ordering::Equal),
        Gaps::One(f) => match *upper {
            Gaps::One(g) => one_meets(span, rel, want, &line_between(f, g)),
            _ => is_as_wanted(rel, want, Ordering::Equal),
        },
        Gaps::Two(f, e) => match *upper {
            Gaps::Two(g, h) => two_meet(span, rel, want, &line_between(f, g), &line_between(e, h)),
            _ => is_as_wanted(rel, want, Ordering::Equal),
        },
    }
}
