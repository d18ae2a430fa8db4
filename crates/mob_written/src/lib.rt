//! Reads the texts of temporal literals into their parts, and prints temporal values. The value of
//! a literal, in normal form, is made in `mob_literal`.
#![tactic(auto)]

mod literal;
mod neighbours;
mod prefix;
pub mod printing;
pub mod values;
pub mod written;

pub use literal::{WrittenValue, literal_of};
pub use neighbours::all_neighbours;
