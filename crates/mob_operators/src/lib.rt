//! The table of operators: how each is written, which types it takes and which type it gives.
#![tactic(auto)]

mod aggregate;
pub mod laws;
mod lookup;
mod operator;
mod table;

pub use aggregate::{AggKind, aggregate_row, is_aggregate};
pub use lookup::{is_function, is_irrational, operator_for};
pub use operator::{Op, Spelling};
