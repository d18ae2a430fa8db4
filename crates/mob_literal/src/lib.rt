//! Reads and prints the values of literals and fields, of all types. `mob_written` reads the parts
//! of temporal literals.
#![tactic(auto)]

mod fields;
pub mod laws;
mod slicing;
mod sql;
mod temporal;

pub use fields::{read_field, write_field};
pub use sql::{read_value, write_value};
