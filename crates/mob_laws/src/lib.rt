//! Laws of whole queries and of whole runs, above the crates that run them. No code runs here.
#![tactic(auto)]

pub mod aggregates;
pub mod indexes;
pub mod kept;
pub mod wide;
