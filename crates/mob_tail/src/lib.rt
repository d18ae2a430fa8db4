//! The text of the answer of a query on the tuples that it keeps, and of the answer of EXPLAIN.
#![tactic(auto)]

mod adding;
mod answers;
mod columns;
mod evaluation;
mod group_memos;
mod grouping;
pub mod laws;
mod plans;
mod roots;
mod state;

pub use answers::answered_text;
pub use plans::plan_text;
