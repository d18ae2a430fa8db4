//! Types the clauses of a SELECT over its tables of FROM: the select list, ON, WHERE, GROUP BY,
//! ORDER BY and LIMIT. Returns the first mistake with its place.
#![tactic(auto)]

mod clauses;
mod conditions;
mod groups;
mod keys;
mod outputs;
mod tables;

pub use clauses::{clauses_to_go, typed_clauses};
