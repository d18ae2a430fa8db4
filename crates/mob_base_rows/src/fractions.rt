//! Fractions. The expected values are computed by hand and with Python's fractions.

use mob_frac::{Frac, Overflow, Wide, over_product, same_ratio};
use std::cmp::Ordering;

const LARGEST: i64 = 4611686018427387903;

const HALF: i64 = 2305843009213693952;

type Parts = (i64, i64);

type Worked = (Parts, Parts, Option<Parts>);

static MADE: [(Parts, Option<Parts>); 9] = [
    ((6, -4), Some((-3, 2))),
    ((0, -7), Some((0, 1))),
    ((LARGEST, 1), Some((LARGEST, 1))),
    ((LARGEST + 1, 1), None),
    ((i64::MIN, 1), None),
    ((i64::MIN, 4), Some((-HALF, 1))),
    ((i64::MIN, i64::MIN), Some((1, 1))),
    ((4, i64::MIN), Some((-1, HALF))),
    ((2, i64::MIN), None),
];

static SUMS: [Worked; 10] = [
    ((1, 2), (1, 3), Some((5, 6))),
    ((1, 6), (1, 3), Some((1, 2))),
    ((1, 2), (-1, 2), Some((0, 1))),
    ((LARGEST, 1), (0, 1), Some((LARGEST, 1))),
    ((LARGEST, 1), (1, 1), None),
    ((-LARGEST, 1), (-1, 1), None),
    ((LARGEST, 1), (-LARGEST, 1), Some((0, 1))),
    ((1, HALF), (1, HALF), Some((1, HALF / 2))),
    (
        (1, 2161727821137838080),
        (1, 1441151880758558720),
        Some((1, 864691128455135232)),
    ),
    ((1, HALF), (1, 3458764513820540928), None),
];

static PRODUCTS: [Worked; 8] = [
    ((2, 3), (9, 4), Some((3, 2))),
    ((LARGEST, 1), (1, LARGEST), Some((1, 1))),
    ((LARGEST, LARGEST - 1), (LARGEST - 1, LARGEST), Some((1, 1))),
    ((LARGEST, 1), (LARGEST, 1), None),
    ((-LARGEST, 1), (-1, 1), Some((LARGEST, 1))),
    ((2147483648, 1), (2147483648, 1), None),
    ((2147483647, 1), (2147483649, 1), Some((LARGEST, 1))),
    ((0, 1), (-LARGEST, 1), Some((0, 1))),
];

static QUOTIENTS: [Worked; 6] = [
    ((1, 2), (-3, 4), Some((-2, 3))),
    ((LARGEST, 1), (LARGEST, 1), Some((1, 1))),
    ((1, 1), (1, LARGEST), Some((LARGEST, 1))),
    ((LARGEST, 1), (1, 2), None),
    ((-1, 1), (-LARGEST, 1), Some((1, LARGEST))),
    ((0, 1), (-5, 1), Some((0, 1))),
];

static ORDERS: [(Parts, Parts, Ordering); 5] = [
    ((1, 2), (2, 4), Ordering::Equal),
    ((-1, 2), (1, 3), Ordering::Less),
    (
        (LARGEST, LARGEST - 1),
        (LARGEST - 1, LARGEST - 2),
        Ordering::Less,
    ),
    ((-LARGEST, 1), (-LARGEST, 2), Ordering::Less),
    ((1, LARGEST), (0, 1), Ordering::Greater),
];

// Two pairs of numbers, and whether their ratios are equal.
static RATIOS: [(Parts, Parts, Parts, Parts, bool); 8] = [
    ((1, 2), (1, 1), (2, 1), (4, 1), true),
    ((1, 2), (1, 1), (2, 1), (5, 1), false),
    ((-1, 2), (1, 1), (2, 1), (-4, 1), true),
    ((-1, 2), (1, 1), (2, 1), (4, 1), false),
    ((0, 1), (1, 1), (0, 1), (-3, 1), true),
    ((0, 1), (1, 1), (1, LARGEST), (1, 1), false),
    (
        (LARGEST, LARGEST - 1),
        (LARGEST - 2, LARGEST),
        (LARGEST, LARGEST - 1),
        (LARGEST - 2, LARGEST),
        true,
    ),
    (
        (LARGEST, LARGEST - 1),
        (1, 1),
        (LARGEST - 1, LARGEST - 2),
        (1, 1),
        false,
    ),
];

fn made(parts: Parts) -> Result<Frac, Overflow> {
    if parts.1 == 0 {
        return Err(Overflow);
    }
    Frac::new(parts.0, parts.1)
}

fn parts_of(made: Result<Frac, Overflow>) -> Option<Parts> {
    match made {
        Ok(f) => Some((f.num(), f.den())),
        Err(Overflow) => None,
    }
}

#[derive(Clone, Copy)]
enum Deed {
    Sum,
    // the difference from the opposite, which is the sum
    Difference,
    Product,
    Quotient,
}

fn quotient(a: &Frac, b: &Frac) -> Result<Frac, Overflow> {
    if b.is_zero() {
        return Err(Overflow);
    }
    a.div(b)
}

fn answer(deed: Deed, a: &Frac, b: &Frac) -> Result<Frac, Overflow> {
    match deed {
        Deed::Sum => a.add(b),
        Deed::Difference => a.sub(&b.negate()),
        Deed::Product => a.mul(b),
        Deed::Quotient => quotient(a, b),
    }
}

fn worked(deed: Deed, a: Parts, b: Parts) -> Option<Parts> {
    match (made(a), made(b)) {
        (Ok(x), Ok(y)) => parts_of(answer(deed, &x, &y)),
        _ => None,
    }
}

fn are_worked(deed: Deed, rows: &[Worked]) -> bool {
    for (a, b, wanted) in rows {
        if worked(deed, *a, *b) != *wanted {
            return false;
        }
    }
    true
}

#[test]
fn fractions_are_exact(rt: HostRuntime) {
    for (parts, wanted) in &MADE {
        assert!(rt; parts_of(made(*parts)) == *wanted);
    }
    assert!(rt; are_worked(Deed::Sum, &SUMS));
    assert!(rt; are_worked(Deed::Difference, &SUMS));
    assert!(rt; are_worked(Deed::Product, &PRODUCTS));
    assert!(rt; are_worked(Deed::Quotient, &QUOTIENTS));
}

fn is_order(a: &Frac, b: &Frac, wanted: Ordering) -> bool {
    let is_same = wanted == Ordering::Equal;
    a.compare(b) == wanted
        && a.is_before(b) == (wanted == Ordering::Less)
        && a.is_same(b) == is_same
        && (*a == *b) == is_same
}

fn are_ordered(a: Parts, b: Parts, wanted: Ordering) -> bool {
    match (made(a), made(b)) {
        (Ok(x), Ok(y)) => is_order(&x, &y, wanted),
        _ => false,
    }
}

fn signs_of(f: &Frac) -> (i8, i8) {
    (f.sign(), f.negate().sign())
}

fn has_signs(num: i64, den: i64, wanted: (i8, i8)) -> bool {
    match made((num, den)) {
        Ok(f) => signs_of(&f) == wanted,
        Err(Overflow) => false,
    }
}

#[test]
fn fractions_are_ordered(rt: HostRuntime) {
    for (a, b, wanted) in &ORDERS {
        assert!(rt; are_ordered(*a, *b, *wanted));
    }
    assert!(rt; has_signs(-1, 3, (-1, 1)));
    assert!(rt; has_signs(0, 3, (0, 0)));
}

// How far a fraction is above zero.
fn above_zero(parts: Parts) -> Option<Wide> {
    match (made(parts), made((0, 1))) {
        (Ok(f), Ok(nil)) => Some(Wide::difference(&f, &nil)),
        _ => None,
    }
}

fn ratio(a: &Wide, b: &Wide, c: &Wide, d: &Wide) -> Option<bool> {
    if b.is_zero() || d.is_zero() {
        return None;
    }
    Some(same_ratio(a, b, c, d))
}

fn have_ratio(row: &(Parts, Parts, Parts, Parts, bool)) -> bool {
    let (a, b, c, d, wanted) = *row;
    match (above_zero(a), above_zero(b), above_zero(c), above_zero(d)) {
        (Some(a), Some(b), Some(c), Some(d)) => ratio(&a, &b, &c, &d) == Some(wanted),
        _ => false,
    }
}

// Quotients by a product: the sign, the numerator and the two denominators.
fn are_over_products() -> bool {
    parts_of(over_product(false, 6, 4, 9)) == Some((1, 6))
        && parts_of(over_product(true, 6, 4, 9)) == Some((-1, 6))
        && parts_of(over_product(true, 0, 4, 9)) == Some((0, 1))
        && parts_of(over_product(false, 1 << 125, 1 << 100, 1 << 27)) == Some((1, 4))
        && parts_of(over_product(false, 5, 1 << 127, 1 << 127)).is_none()
        && parts_of(over_product(false, 1, 1 << 62, 1)).is_none()
}

fn are_from_wide() -> bool {
    parts_of(Frac::from_wide(-3 << 100, 1 << 101)) == Some((-3, 2))
        && parts_of(Frac::from_wide(i128::MIN, 2)).is_none()
}

#[test]
fn wide_numbers_are_reduced(rt: HostRuntime) {
    for row in &RATIOS {
        assert!(rt; have_ratio(row));
    }
    assert!(rt; are_over_products() && are_from_wide());
}
