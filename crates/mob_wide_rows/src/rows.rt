//! Rows of numbers, each with an answer worked out by hand.

use mob_frac::Frac;
use mob_wide::{Broad, Exact, Whole, are_opposite, line_at, root_within};
use std::alloc::{AllocError, Global};
use std::cmp::Ordering;

// A fraction by its parts.
type Parts = (i64, i64);

// A fraction, and how often it is a factor.
type Power = (Parts, usize);

const NONE: Power = ((1, 1), 0);

fn number(alloc: Global, parts: Parts) -> Option<Broad> {
    if parts.1 == 0 {
        return None;
    }
    match Frac::new(parts.0, parts.1) {
        Ok(fraction) => Broad::new(alloc, &fraction).ok(),
        Err(_) => None,
    }
}

// The number, multiplied so often by the factor.
fn multiplied(alloc: Global, begin: Broad, factor: &Broad, times: usize) -> Option<Broad> {
    let mut product = begin;
    for _ in 0..times {
        match product.times(alloc, factor) {
            Ok(next) => product = next,
            Err(_) => return None,
        }
    }
    Some(product)
}

fn power(alloc: Global, power: &Power) -> Option<Broad> {
    match (number(alloc, (1, 1)), number(alloc, power.0)) {
        (Some(one), Some(factor)) => multiplied(alloc, one, &factor, power.1),
        _ => None,
    }
}

// What is done with two numbers.
#[derive(Clone, Copy)]
enum Act {
    Plus,
    Minus,
    Times,
}

fn acted(alloc: Global, act: Act, a: &Broad, b: &Broad) -> Result<Broad, AllocError> {
    match act {
        Act::Plus => a.plus(alloc, b),
        Act::Minus => a.minus(alloc, b),
        Act::Times => a.times(alloc, b),
    }
}

// Whether the number in lowest terms has these parts, or is too large where there are none.
fn is_fitting(alloc: Global, number: &Broad, wanted: Option<Parts>) -> bool {
    match number.fitting(alloc) {
        Ok(Some(fraction)) => wanted == Some((fraction.num(), fraction.den())),
        Ok(None) => wanted.is_none(),
        Err(_) => false,
    }
}

fn acts_to(alloc: Global, row: &(Power, Act, Power, Option<Parts>)) -> bool {
    match (power(alloc, &row.0), power(alloc, &row.2)) {
        (Some(a), Some(b)) => match acted(alloc, row.1, &a, &b) {
            Ok(answer) => is_fitting(alloc, &answer, row.3),
            Err(_) => false,
        },
        _ => false,
    }
}

static ACTS: [(Power, Act, Power, Option<Parts>); 9] = [
    // three halves are left of ten by nine of their inverse
    (((3, 2), 10), Act::Times, ((2, 3), 9), Some((3, 2))),
    // numbers of 305 bits
    (
        ((1 << 61, 1), 5),
        Act::Minus,
        ((1 << 61, 1), 5),
        Some((0, 1)),
    ),
    (((-2, 1), 101), Act::Plus, ((2, 1), 101), Some((0, 1))),
    (((0, 1), 1), Act::Times, ((2, 1), 200), Some((0, 1))),
    // the greatest number that fits, and the least above it that does not
    (
        ((2, 1), 62),
        Act::Minus,
        NONE,
        Some((4611686018427387903, 1)),
    ),
    (((2, 1), 62), Act::Times, NONE, None),
    // a denominator of 63 bits
    (((1, 2), 62), Act::Times, NONE, None),
    (((1, 2), 61), Act::Times, NONE, Some((1, 1 << 61))),
    // 5383903451054056009
    (
        ((4611686018427387903, 1), 1),
        Act::Plus,
        ((772217432626668106, 1), 1),
        None,
    ),
];

#[test]
fn numbers_add_and_multiply(rt: HostRuntime) {
    for row in &ACTS {
        assert!(rt; acts_to(rt.alloc(), row));
    }
}

fn divides_to(alloc: Global, row: &(Power, Power, Option<Parts>)) -> bool {
    match (power(alloc, &row.0), power(alloc, &row.1)) {
        (Some(a), Some(b)) => is_quotient(alloc, &a, &b, row.2),
        _ => false,
    }
}

fn is_quotient(alloc: Global, a: &Broad, b: &Broad, wanted: Option<Parts>) -> bool {
    if b.is_zero() {
        return false;
    }
    match a.over(alloc, b) {
        Ok(quotient) => is_fitting(alloc, &quotient, wanted),
        Err(_) => false,
    }
}

static QUOTIENTS: [(Power, Power, Option<Parts>); 3] = [
    // numbers of 305 bits
    (((1 << 61, 1), 5), ((1 << 61, 1), 5), Some((1, 1))),
    (((7, 1), 30), ((-7, 1), 29), Some((-7, 1))),
    (((10, 1), 40), ((10, 1), 39), Some((10, 1))),
];

#[test]
fn numbers_divide(rt: HostRuntime) {
    for row in &QUOTIENTS {
        assert!(rt; divides_to(rt.alloc(), row));
    }
}

fn compares(alloc: Global, row: &(Power, Power, Ordering)) -> bool {
    match (power(alloc, &row.0), power(alloc, &row.1)) {
        (Some(a), Some(b)) => match a.compare(alloc, &b) {
            Ok(order) => order == row.2,
            Err(_) => false,
        },
        _ => false,
    }
}

static ORDERS: [(Power, Power, Ordering); 5] = [
    (((2, 1), 100), ((2, 1), 101), Ordering::Less),
    (((3, 2), 20), ((3, 2), 20), Ordering::Equal),
    (((-2, 1), 101), ((2, 1), 3), Ordering::Less),
    (((0, 1), 1), ((1, 2), 300), Ordering::Less),
    (((1, 3), 80), ((1, 3), 81), Ordering::Greater),
];

#[test]
fn numbers_have_an_order(rt: HostRuntime) {
    for row in &ORDERS {
        assert!(rt; compares(rt.alloc(), row));
    }
}

fn has_sign(alloc: Global, row: &(Power, Ordering)) -> bool {
    match power(alloc, &row.0) {
        Some(number) => number.sign() == row.1,
        None => false,
    }
}

static SIGNS: [(Power, Ordering); 3] = [
    (((-1, 2), 81), Ordering::Less),
    (((0, 1), 3), Ordering::Equal),
    (((-1, 2), 80), Ordering::Greater),
];

#[test]
fn numbers_have_a_sign(rt: HostRuntime) {
    for row in &SIGNS {
        assert!(rt; has_sign(rt.alloc(), row));
    }
}

fn whole_acted(alloc: Global, act: Act, a: &Whole, b: &Whole) -> Result<Whole, AllocError> {
    match act {
        Act::Plus => a.plus(alloc, b),
        Act::Minus => a.minus(alloc, b),
        Act::Times => a.times(alloc, b),
    }
}

fn is_whole(alloc: Global, number: &Whole, wanted: i128) -> bool {
    match Whole::new(alloc, wanted) {
        Ok(wanted) => number.compare(&wanted) == Ordering::Equal,
        Err(_) => false,
    }
}

fn whole_acts_to(alloc: Global, row: &(i128, Act, i128, i128)) -> bool {
    match (Whole::new(alloc, row.0), Whole::new(alloc, row.2)) {
        (Ok(a), Ok(b)) => match whole_acted(alloc, row.1, &a, &b) {
            Ok(answer) => is_whole(alloc, &answer, row.3),
            Err(_) => false,
        },
        _ => false,
    }
}

static WHOLES: [(i128, Act, i128, i128); 5] = [
    (1 << 100, Act::Plus, 1 << 100, 1 << 101),
    (1 << 100, Act::Plus, -(1 << 100), 0),
    ((1 << 64) - 1, Act::Plus, 1, 1 << 64),
    (1 << 63, Act::Times, -(1 << 63), -(1 << 126)),
    (-3, Act::Minus, 1 << 90, -(1 << 90) - 3),
];

#[test]
fn whole_numbers_add_and_multiply(rt: HostRuntime) {
    for row in &WHOLES {
        assert!(rt; whole_acts_to(rt.alloc(), row));
    }
}

// The values of a function at the ends of a time, in whole numbers, and an instant.
type Line = (i64, i64, i64, i64, i64);

fn whole(number: i64) -> Option<Frac> {
    Frac::new(number, 1).ok()
}

fn value_on(alloc: Global, line: &Line) -> Option<Broad> {
    match (whole(line.0), whole(line.1), whole(line.2)) {
        (Some(x0), Some(x1), Some(l)) => match (whole(line.3), whole(line.4)) {
            (Some(u), Some(t)) => line_at(alloc, &x0, &x1, &l, &u, &t).ok(),
            _ => None,
        },
        _ => None,
    }
}

fn is_on_line(alloc: Global, row: &(Line, Option<Parts>)) -> bool {
    match value_on(alloc, &row.0) {
        Some(value) => is_fitting(alloc, &value, row.1),
        None => false,
    }
}

static LINES: [(Line, Option<Parts>); 5] = [
    // a third of the way between numbers whose difference does not fit
    (
        (4611686018427387903, -4611686018427387903, 0, 3, 1),
        Some((1537228672809129301, 1)),
    ),
    ((7, 9, 0, 3, 0), Some((7, 1))),
    ((7, 9, 0, 3, 3), Some((9, 1))),
    ((7, 9, 0, 3, 1), Some((23, 3))),
    // one instant
    ((7, 9, 2, 2, 2), Some((7, 1))),
];

#[test]
fn lines_have_values(rt: HostRuntime) {
    for row in &LINES {
        assert!(rt; is_on_line(rt.alloc(), row));
    }
}

// A function by its values at the ends of a time, and these ends.
type Function = (Power, Power, i64, i64);

fn root_of(alloc: Global, f0: &Broad, f1: &Broad, l: &Frac, u: &Frac) -> Option<Broad> {
    if !are_opposite(f0, f1) {
        return None;
    }
    root_within(alloc, f0, f1, l, u).ok()
}

fn root(alloc: Global, function: &Function) -> Option<Broad> {
    match (power(alloc, &function.0), power(alloc, &function.1)) {
        (Some(f0), Some(f1)) => match (whole(function.2), whole(function.3)) {
            (Some(l), Some(u)) => root_of(alloc, &f0, &f1, &l, &u),
            _ => None,
        },
        _ => None,
    }
}

fn has_root(alloc: Global, row: &(Function, Option<Parts>)) -> bool {
    match root(alloc, &row.0) {
        Some(root) => is_fitting(alloc, &root, row.1),
        None => false,
    }
}

static ROOTS: [(Function, Option<Parts>); 4] = [
    // halfway between numbers of 101 bits
    ((((-2, 1), 101), ((2, 1), 101), 0, 3), Some((3, 2))),
    // the third is risen at 2/5 of the way
    ((((-1, 3), 1), ((1, 2), 1), 1, 2), Some((7, 5))),
    ((((4, 1), 1), ((-5, 1), 1), 0, 3), Some((4, 3))),
    // one part in 2^62
    ((((1, 1), 1), ((-4611686018427387903, 1), 1), 0, 1), None),
];

#[test]
fn functions_have_roots(rt: HostRuntime) {
    for row in &ROOTS {
        assert!(rt; has_root(rt.alloc(), row));
    }
}

// The square of a fraction.
fn squared(alloc: Global, parts: Parts) -> Option<Exact> {
    if parts.1 == 0 {
        return None;
    }
    match Frac::new(parts.0, parts.1) {
        Ok(number) => Exact::square_of(alloc, &number).ok(),
        Err(_) => None,
    }
}

// Whether the square is a `Frac` from the first, with these parts, or is none where there are no
// parts.
fn squares_to(alloc: Global, row: &(Parts, Option<Parts>)) -> bool {
    match squared(alloc, row.0) {
        Some(square) => match square.as_frac() {
            Some(small) => row.1 == Some((small.num(), small.den())),
            None => row.1.is_none(),
        },
        None => false,
    }
}

static SQUARES: [(Parts, Option<Parts>); 4] = [
    ((3, 2), Some((9, 4))),
    ((-2147483647, 1), Some((4611686014132420609, 1))),
    // 2^62 in the numerator, and in the denominator
    ((2147483648, 1), None),
    ((1, 2147483648), None),
];

// A square that fits stays a `Frac`, of which no operation allocates.
#[test]
fn squares_that_fit_stay_small(rt: HostRuntime) {
    for row in &SQUARES {
        assert!(rt; squares_to(rt.alloc(), row));
    }
}

fn is_square_below(alloc: Global, a: Parts, b: Parts) -> Option<bool> {
    match (squared(alloc, a), squared(alloc, b)) {
        (Some(a), Some(b)) => a.is_below(alloc, &b).ok(),
        _ => None,
    }
}

// Two numbers of which the square of the first is below that of the second: both small, one of them
// and both large.
static BELOW: [(Parts, Parts); 4] = [
    ((1, 3), (1, 2)),
    ((3, 1), (2147483648, 1)),
    ((1, 2147483648), (1, 3)),
    ((2147483648, 1), (-2147483649, 1)),
];

#[test]
fn squares_are_in_order(rt: HostRuntime) {
    for row in &BELOW {
        assert!(rt; is_square_below(rt.alloc(), row.0, row.1) == Some(true));
        assert!(rt; is_square_below(rt.alloc(), row.1, row.0) == Some(false));
        assert!(rt; is_square_below(rt.alloc(), row.0, row.0) == Some(false));
    }
}
