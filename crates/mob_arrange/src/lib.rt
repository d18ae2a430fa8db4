//! The rows of an answer: sorted by their keys, made distinct, cut to the limit, and printed.
#![tactic(auto)]

mod arrange;
mod distinct;
mod fields;
mod found;
mod listed;
mod numbers;
mod order;
mod row_values;
mod rows;

pub use arrange::arranged_text;
pub use row_values::RowValue;
pub use rows::Row;
