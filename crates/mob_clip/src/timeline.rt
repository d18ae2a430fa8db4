//! Values that change at some instants, and the merge of two of them in one walk.

ghost use Rattle.std.specs.Prelude.{◌≡◌, ◌<◌, ◌≤◌, ◌+◌, length, drop, List, IfOk};
ghost use Rattle.mob_ratio.specs.Ratio.{Ratio};
ghost use Rattle.mob_clip.specs.Timelines.{timeline_at, ChangesFit, IsNextChange, mixed_left, mixed_right, mixed_both};

use mob_frac::Frac;
use std::alloc::{AllocError, Global};

/// A change: the value at an instant, and the value after it until the next change.
#[derive(Clone, Copy, Drop)]
pub struct Change<T> {
    /// The instant.
    pub at: Frac,
    /// The value at the instant.
    pub there: T,
    /// The value after it.
    pub after: T,
}

/// A value at each instant: the first one, and after each change its `after` value.
#[derive(Drop)]
pub struct Timeline<T> {
    /// The value before the first change.
    pub first: T,
    /// The changes, in order of time.
    pub changes: Vec<Change<T>>,
}

/// Values that can be mixed two by two.
pub trait Mix: Copy {
    /// The mix of two values.
    ghost mix: { Self → Self → Self };

    /// The mix of two values.
    fn mix(&self, other: &Self) -> Self
        ensures value { result ≡ mix self.now other.now };
}

// The next change of two walks, and where they continue: the value and the position on each side.
#[derive(Clone, Copy, Drop)]
struct MetChange<T> {
    change: Change<T>,
    left: T,
    right: T,
    i: usize,
    j: usize,
}

// A change of the first walk only.
fn take_left<T: Mix>(x: &Change<T>, right: &T, i: usize, j: usize) -> MetChange<T>
    ensures met { result ≡ record { change = mixed_left T.mix x.now right.now; left = x.now.after; right = right.now; i = i; j = j } }
{
    MetChange {
        change: Change {
            at: x.at,
            there: x.there.mix(right),
            after: x.after.mix(right),
        },
        left: x.after,
        right: *right,
        i,
        j,
    }
}

// A change of the second walk only.
fn take_right<T: Mix>(left: &T, y: &Change<T>, i: usize, j: usize) -> MetChange<T>
    ensures met { result ≡ record { change = mixed_right T.mix left.now y.now; left = left.now; right = y.now.after; i = i; j = j } }
{
    MetChange {
        change: Change {
            at: y.at,
            there: left.mix(&y.there),
            after: left.mix(&y.after),
        },
        left: *left,
        right: y.after,
        i,
        j,
    }
}

// A change of both at the same instant.
fn take_both<T: Mix>(x: &Change<T>, y: &Change<T>, i: usize, j: usize) -> MetChange<T>
    ensures met { result ≡ record { change = mixed_both T.mix x.now y.now; left = x.now.after; right = y.now.after; i = i; j = j } }
{
    MetChange {
        change: Change {
            at: x.at,
            there: x.there.mix(&y.there),
            after: x.after.mix(&y.after),
        },
        left: x.after,
        right: y.after,
        i,
        j,
    }
}

// The next change of either walk.
fn meet<T: Mix>(
    xs: &[Change<T>],
    i: usize,
    ys: &[Change<T>],
    j: usize,
    left: &T,
    right: &T,
) -> MetChange<T>
    requires first { i ≤ length xs.now }
    requires second { j ≤ length ys.now }
    requires some { i + j < length xs.now + length ys.now }
    ensures met { IsNextChange T.mix left.now right.now (drop i xs.now) (drop j ys.now) result.change result.left result.right (drop result.i xs.now) (drop result.j ys.now) }
    ensures first { result.i ≤ length xs.now }
    ensures second { result.j ≤ length ys.now }
    ensures on { i + j < result.i + result.j }
{
    if i == xs.len() {
        return take_right(left, &ys[j], i, j + 1);
    }
    if j == ys.len() {
        return take_left(&xs[i], right, i + 1, j);
    }
    let x = &xs[i];
    let y = &ys[j];
    if x.at.is_before(&y.at) {
        return take_left(x, right, i + 1, j);
    }
    if y.at.is_before(&x.at) {
        return take_right(left, y, i, j + 1);
    }
    take_both(x, y, i + 1, j + 1)
}

/// The mix of two at each instant. The only error is a failed allocation.
pub fn merged<T: Mix>(
    alloc: Global,
    a: &Timeline<T>,
    b: &Timeline<T>,
) -> Result<Timeline<T>, AllocError>
    ensures values { IfOk result (λ m. (t : Ratio) → timeline_at m t ≡ T.mix (timeline_at a.now t) (timeline_at b.now t)) }
    ensures fit { IfOk result (λ m. (parts : Ratio → List Ratio) → ChangesFit parts a.now.changes.items → ChangesFit parts b.now.changes.items → ChangesFit parts m.changes.items) }
{
    let xs = a.changes.as_slice();
    let ys = b.changes.as_slice();
    let first = a.first.mix(&b.first);
    let mut changes = Vec::new(alloc);
    let mut left = a.first;
    let mut right = b.first;
    let mut i = 0;
    let mut j = 0;
    while i < xs.len() || j < ys.len() {
        let met = meet(xs, i, ys, j, &left, &right);
        changes.push(met.change)?;
        left = met.left;
        right = met.right;
        i = met.i;
        j = met.j;
    }
    Ok(Timeline { first, changes })
}
