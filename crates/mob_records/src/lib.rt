//! Writes records of fields as text with `csv`: a table file, or an answer with its last line.
#![tactic(auto)]

pub mod laws;
mod printer;
mod text;

pub use printer::FieldPrinter;
pub use text::{bytes_of, counted_text, counted_text_by, records_text};
