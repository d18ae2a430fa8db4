//! The operators of SQL that restrict a temporal value or look at its instants: their values, or
//! the first formula with a part that does not fit.

pub mod by_value;
pub mod coordinates;
pub mod defined;
pub mod look;
pub mod restriction;
