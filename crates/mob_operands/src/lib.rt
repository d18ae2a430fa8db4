//! Operators give values of their types, and keys have boxes.
//!
//! No code runs here: laws over definitions of several crates are proved in seconds and lengthen no
//! chain of crates.
#![tactic(auto)]

pub mod laws;
