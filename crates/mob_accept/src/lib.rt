//! Decides whether a text is a script, and if not, gives its first refusal.
//!
//! It is apart from `mob_shell`, one of the most expensive crates to prove.
#![tactic(auto)]

pub mod laws;
mod text;

pub use text::{SCRIPT_LIMIT, accept};
