//! The tiles that each row reaches, as the first and as the second row of a pair.
pub mod ranging;
pub mod reach;
pub mod rows;
