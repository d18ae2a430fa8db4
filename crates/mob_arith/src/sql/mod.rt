//! The operators of SQL on numbers, truth values and texts, over time too: their values, or the
//! first formula with a part that does not fit.

pub mod arithmetic;
pub mod calculation;
mod factors;
pub mod lifting;
mod line_arithmetic;
mod numbers;
