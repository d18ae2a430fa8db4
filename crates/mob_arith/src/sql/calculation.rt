//! Which operation on two numbers.

/// An operation on two numbers, which temporal numbers have too.
#[derive(Clone, Copy, Debug, PartialEq, Eq)]
pub enum Calculation {
    /// `+`
    Sum,
    /// `-`
    Difference,
    /// `*`
    Product,
}
