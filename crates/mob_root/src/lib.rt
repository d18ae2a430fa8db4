//! The root of a linear function whose end values have opposite signs, and the sign of a number.
//!
//! It is a crate of its own because its wrong body costs a check of its whole crate: 38 seconds
//! here, 86 in `mob_cells`.
#![tactic(auto)]

mod zero;

pub use zero::{are_opposite, root_within, sign_of};
