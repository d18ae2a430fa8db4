//! The program mobthin as a library: a table of trips goes in; the table with each trip simplified,
//! a note and a status come out.
#![tactic(auto)]

mod command;
mod decide;
pub mod laws;
mod rows;
mod settings;
mod top;

pub use top::{run_thin, tell_thin};
