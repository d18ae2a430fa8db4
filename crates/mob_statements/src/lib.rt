//! Statements that run one after another, each with the text of its answer, and how they end. A
//! closure runs each statement, so this crate knows nothing of tables.
//!
//! It is apart from `mob_shell` so that six wrong bodies, one for each ending, are tried on a small
//! crate.
#![tactic(auto)]

mod engine;

pub use engine::run_all;
