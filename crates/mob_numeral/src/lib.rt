//! Reads numbers exactly from their texts and prints them, and has the parts that the readers of
//! all texts share.
#![tactic(auto)]

mod fault;
mod laws;
mod number;
mod numeral;
mod printing;
mod readers;
mod words;

pub use fault::ReadText;
pub use laws::{number_read_again, numbers_with_figures, whole_read_again};
pub use number::{number_value_at, read_number, read_whole, ten_to};
pub use numeral::{Figures, digits_at};
pub use printing::write_number;
pub use readers::{
    behind, blanks, is_blank, maybe, some_blanks_at, spaced_at, split_while, within_blanks,
};
pub use words::any_case_at;
