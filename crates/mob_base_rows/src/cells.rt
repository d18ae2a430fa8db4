//! Roots of linear functions on spans, and the cells between them.

ghost use Rattle.std.specs.Prelude.{◌≡◌, ◌<◌, ◌∷◌, [], length, true, IfOk};
ghost use Rattle.mob_ratio.specs.Order.{before};

use crate::lines::{fraction, span};
use mob_cells::{Cells, Ends, root};
use mob_frac::Frac;
use mob_list::fault::Fault;
use mob_slice::Formula;
use mob_span::Span;
use std::alloc::Global;

// A fraction by its parts.
type Parts = (i64, i64);

// A function, by its values at the ends of a span.
type Function = (Parts, Parts);

// The ends of a span, and whether it includes them.
type Limits = (i64, i64, bool, bool);

// A cell by its ends, and the sign of a function there. A cell includes both ends if they are one
// instant, else neither.
type Signed = (Parts, Parts, i8);

fn is_fraction(number: &Frac, wanted: Parts) -> bool {
    number.num() == wanted.0 && number.den() == wanted.1
}

fn function(ends: &Function) -> Option<Ends> {
    match (fraction(ends.0), fraction(ends.1)) {
        (Some(at_lower), Some(at_upper)) => Some(Ends { at_lower, at_upper }),
        _ => None,
    }
}

// Whether the root is the expected one; (0, 0) stands for a part that does not fit.
fn is_root(span: &Span, ends: &Ends, wanted: Option<Parts>) -> bool {
    if !span.is_long() {
        return false;
    }
    match &root(span, ends) {
        Ok(Some(found)) => match wanted {
            Some(parts) => is_fraction(found, parts),
            None => false,
        },
        Ok(None) => wanted.is_none(),
        Err(_) => wanted == Some((0, 0)),
    }
}

fn has_root(limits: &Limits, ends: &Function, wanted: Option<Parts>) -> bool {
    match (span(*limits), function(ends)) {
        (Some(span), Some(ends)) => is_root(&span, &ends, wanted),
        _ => false,
    }
}

static ROOTS: [(Limits, Function, Option<Parts>); 6] = [
    // 4 - 3 t
    ((0, 3, true, true), ((4, 1), (-5, 1)), Some((4, 3))),
    // from -1/3 at 1 to 1/2 at 2, a difference of 5/6: the root is after 2/5 of the time
    ((1, 2, false, false), ((-1, 3), (1, 2)), Some((7, 5))),
    // 0 at an end, no change of sign, level
    ((0, 3, true, true), ((0, 1), (5, 1)), None),
    ((0, 3, true, true), ((1, 1), (5, 1)), None),
    ((0, 3, true, true), ((0, 1), (0, 1)), None),
    // the least number minus 1
    (
        (0, 3, true, true),
        ((-4611686018427387903, 1), (1, 1)),
        Some((0, 0)),
    ),
];

#[test]
fn functions_have_roots(rt: HostRuntime) {
    for (limits, ends, wanted) in &ROOTS {
        assert!(rt; has_root(limits, ends, *wanted));
    }
}

// The cells of one function.
fn of_one(alloc: Global, span: Span, first: Ends) -> Result<Cells, Fault<Formula>>
    requires long { before span.lower span.upper ≡ true }
    ensures one { IfOk result (λ c. c.functions ≡ first ∷ []) }
{
    let mut functions = Vec::new(alloc);
    functions.push(first)?;
    Cells::new(alloc, span, functions)
}

// The cells of two functions.
fn of_two(alloc: Global, span: Span, first: Ends, next: Ends) -> Result<Cells, Fault<Formula>>
    requires long { before span.lower span.upper ≡ true }
    ensures two { IfOk result (λ c. c.functions ≡ first ∷ next ∷ []) }
{
    let mut functions = Vec::new(alloc);
    functions.push(first)?;
    functions.push(next)?;
    Cells::new(alloc, span, functions)
}

fn is_between(span: &Span, wanted: &Signed) -> bool {
    let one = wanted.0 == wanted.1;
    is_fraction(span.lower(), wanted.0)
        && is_fraction(span.upper(), wanted.1)
        && span.lower_inc() == one
        && span.upper_inc() == one
}

fn is_cell(cells: &Cells, cell: usize, function: usize, wanted: &Signed) -> bool
    requires function { function < length cells.now.functions }
{
    let spans = cells.cells();
    if cell >= spans.len() {
        return false;
    }
    is_between(&spans[cell], wanted) && cells.sign(cell, function) == wanted.2
}

fn are_cells(cells: &Cells, function: usize, wanted: &[Signed]) -> bool
    requires function { function < length cells.now.functions }
{
    for (i, signed) in wanted.iter().enumerate() {
        if !is_cell(cells, i, function, signed) {
            return false;
        }
    }
    cells.cells().len() == wanted.len()
}

fn is_cut_by_one(alloc: Global, span: Span, first: Ends, wanted: &[Signed]) -> bool {
    if !span.is_long() {
        return false;
    }
    match &of_one(alloc, span, first) {
        Ok(cells) => are_cells(cells, 0, wanted),
        Err(_) => false,
    }
}

fn is_cut_once(alloc: Global, limits: &Limits, first: &Function, wanted: &[Signed]) -> bool {
    match (span(*limits), function(first)) {
        (Some(span), Some(first)) => is_cut_by_one(alloc, span, first, wanted),
        _ => false,
    }
}

static CUTS: [(Limits, Function, &[Signed]); 3] = [
    // 4 - 3 t
    (
        (0, 3, true, true),
        ((4, 1), (-5, 1)),
        &[
            ((0, 1), (0, 1), 1),
            ((0, 1), (4, 3), 1),
            ((4, 3), (4, 3), 0),
            ((4, 3), (3, 1), -1),
            ((3, 1), (3, 1), -1),
        ],
    ),
    // level
    (
        (0, 3, false, true),
        ((-5, 1), (-5, 1)),
        &[((0, 1), (3, 1), -1), ((3, 1), (3, 1), -1)],
    ),
    // 0 only at an end
    (
        (0, 3, true, false),
        ((0, 1), (6, 1)),
        &[((0, 1), (0, 1), 0), ((0, 1), (3, 1), 1)],
    ),
];

#[test]
fn functions_have_cells(rt: HostRuntime) {
    for (limits, first, wanted) in &CUTS {
        assert!(rt; is_cut_once(rt.alloc(), limits, first, wanted));
    }
}

// A span, two functions on it, and the cells with the signs of each.
type Two = (
    Limits,
    Function,
    Function,
    &'static [Signed],
    &'static [Signed],
);

fn is_cut_by_two(alloc: Global, span: Span, first: Ends, next: Ends, row: &Two) -> bool {
    if !span.is_long() {
        return false;
    }
    match &of_two(alloc, span, first, next) {
        Ok(cells) => are_cells(cells, 0, row.3) && are_cells(cells, 1, row.4),
        Err(_) => false,
    }
}

fn is_cut_twice(alloc: Global, row: &Two) -> bool {
    match (span(row.0), function(&row.1), function(&row.2)) {
        (Some(span), Some(first), Some(next)) => is_cut_by_two(alloc, span, first, next, row),
        _ => false,
    }
}

static TWO: [Two; 2] = [
    // t - 1 and 8 - 3 t
    (
        (0, 4, true, false),
        ((-1, 1), (3, 1)),
        ((8, 1), (-4, 1)),
        &[
            ((0, 1), (0, 1), -1),
            ((0, 1), (1, 1), -1),
            ((1, 1), (1, 1), 0),
            ((1, 1), (8, 3), 1),
            ((8, 3), (8, 3), 1),
            ((8, 3), (4, 1), 1),
        ],
        &[
            ((0, 1), (0, 1), 1),
            ((0, 1), (1, 1), 1),
            ((1, 1), (1, 1), 1),
            ((1, 1), (8, 3), 1),
            ((8, 3), (8, 3), 0),
            ((8, 3), (4, 1), -1),
        ],
    ),
    // t - 1 and 2 - 2 t are 0 at one instant, which is one cell
    (
        (0, 4, false, false),
        ((-1, 1), (3, 1)),
        ((2, 1), (-6, 1)),
        &[
            ((0, 1), (1, 1), -1),
            ((1, 1), (1, 1), 0),
            ((1, 1), (4, 1), 1),
        ],
        &[
            ((0, 1), (1, 1), 1),
            ((1, 1), (1, 1), 0),
            ((1, 1), (4, 1), -1),
        ],
    ),
];

#[test]
fn two_functions_share_cells(rt: HostRuntime) {
    for row in &TWO {
        assert!(rt; is_cut_twice(rt.alloc(), row));
    }
}
