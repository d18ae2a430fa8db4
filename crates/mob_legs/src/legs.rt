//! The difference of two moving points on a piece of time.

use mob_frac::Frac;

/// The difference of two points on a piece of time: a straight segment from (x0, y0) to (x1, y1).
#[derive(Clone, Copy, Drop)]
pub struct Leg {
    /// The difference to the east at the lower end: the first point minus the second.
    pub x0: Frac,
    /// The difference to the north at the lower end.
    pub y0: Frac,
    /// The difference to the east at the upper end.
    pub x1: Frac,
    /// The difference to the north at the upper end.
    pub y1: Frac,
}

/// The squared distances at both ends of a piece.
#[derive(Clone, Copy, Drop)]
pub struct Squares {
    /// The squared distance at the lower end.
    pub first: Frac,
    /// The squared distance at the upper end.
    pub last: Frac,
}

/// The numbers that give the nearest point of the segment of a difference.
#[derive(Clone, Copy, Drop)]
pub struct Foot {
    /// The squared length of the segment.
    pub length: Frac,
    /// The dot product of the first difference and the segment's vector: below 0 if the points
    /// approach at the start.
    pub along: Frac,
    /// The dot product of the last difference and the segment's vector: above 0 if the points
    /// recede at the end.
    pub beyond: Frac,
    /// The cross product of the first difference and the segment's vector.
    pub across: Frac,
}
