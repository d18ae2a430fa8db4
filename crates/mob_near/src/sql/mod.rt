//! The operators of SQL on nearness: their values, or the first formula with a part that does not
//! fit.

pub mod nearness;
