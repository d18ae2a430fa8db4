//! The values of SQL expressions, borrowed or owned, how much memory they take, and tables of them.
#![tactic(auto)]

mod boxed;
mod copies;
pub mod held;
pub mod kinds;
pub mod laws;
pub mod lines;
pub mod pair;
pub mod relation;
mod rows;
pub mod sets;
mod store;
mod value;
mod value_box;
pub mod weights;

pub use boxed::Boxed;
pub use rows::{Rows, RowsLeft};
pub use store::{Store, Table};
pub use value::Value;
pub use value_box::{box_of, box_of_value};
