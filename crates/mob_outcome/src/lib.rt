//! Outcomes of expressions: why one has no value, and the memos that keep the outcomes of
//! operators.
//!
//! It is apart from `mob_eval` so that the wrong body `fault_kept_as_null` is tried on a small
//! crate.
#![tactic(auto)]

pub mod fault;
pub mod memos;
