//! The input of the demo: a table file of ships that move to and fro in a square for an hour, and a
//! script that queries them.
//!
//! It is apart from `mob_ending` so that its wrong body is tried on a small crate.
#![tactic(auto)]

pub mod laws;
mod places;
mod script;
mod table;

pub use script::demo_script;
pub use table::demo_file;
