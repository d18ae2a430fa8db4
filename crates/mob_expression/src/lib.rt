//! Names and types of expressions. Each name becomes a number, each expression gets its operator
//! and its type, and each constant its number in written order. Otherwise the first mistake is
//! returned, with its place.
#![tactic(auto)]

pub mod constants;
pub mod expression;
pub mod operators;
pub mod words;
