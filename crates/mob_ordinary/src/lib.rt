//! The ordinary operators without a formula: comparisons of two values of SQL, and logic. Also how
//! stored values are read.
//!
//! It is apart from `mob_eval`, so that a change of the walk does not prove it again.
#![tactic(auto)]

pub mod comparison;
pub mod logic;
pub mod numbers;
pub mod reading;
