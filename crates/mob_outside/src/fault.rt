//! The only error of an end.

/// A call of an end failed. The end's count of faults rose in that call.
#[derive(Clone, Copy, Debug, PartialEq, Eq)]
pub struct Failed;
