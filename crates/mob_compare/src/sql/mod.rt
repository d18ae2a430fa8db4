//! The operators of SQL that compare over time: their values, or the first formula with a part that
//! does not fit.

pub mod signs;
pub mod true_times;
pub mod when;
