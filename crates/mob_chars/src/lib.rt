//! Splits a script into tokens: words, numbers, strings and signs, with blanks and comments between
//! them.
#![tactic(auto)]

pub mod laws;
pub mod lexer;
mod scan;
pub mod token;
