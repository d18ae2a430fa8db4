//! Temporal values merged: at each instant the value of whichever is defined, or a combination of
//! both; and many values, two by two. `specs/Aggregates.antt` defines the aggregate of a list.
#![tactic(auto)]

mod adding;
mod again;
pub mod laws;
mod parts;
mod taking;
mod uniting;

pub use adding::{add_in, and_in, one, ones_of, or_in};
pub use parts::{Part, Uniting, gathered, with_value};
pub use taking::either;
pub use uniting::{Conjunctions, Counts, Disjunctions};
