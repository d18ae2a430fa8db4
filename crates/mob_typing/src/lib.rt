//! Types statements and whole scripts, which makes the trees of `mob_typed`. Each table, column and
//! constant becomes a number, and each expression gets its operator and its type. Otherwise the
//! first mistake is returned, with its place.
#![tactic(auto)]

mod from;
pub mod laws;
mod names;
mod rows;
mod script;
mod select;
mod tables;

pub use script::type_script;
