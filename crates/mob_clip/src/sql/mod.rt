//! The operators of SQL on boxes and polygons: their values, or the first formula with a part that
//! does not fit.

pub mod boxes;
pub mod polygons;
