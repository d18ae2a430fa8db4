//! The gap of two boxes: a lower bound of the squared distance of their contents.

mod kind;
pub mod laws;
pub mod measure;

pub use kind::Gap;
