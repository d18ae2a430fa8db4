//! The program mobnear as a library: the K trips of a table that come nearest to a point or a
//! moving point.
#![tactic(auto)]

mod answer;
mod decide;
pub mod laws;
mod reading;
mod settings;
mod top;
mod values;

pub use top::{run_near, tell_near};
