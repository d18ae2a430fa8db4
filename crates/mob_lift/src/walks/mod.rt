//! Walks over the pieces of temporal values, in order of time: `Ones` over those of one value,
//! `Common` over those that two share, and `Pieces` over those of two operands, by one of the
//! others. A walk does not allocate and has no error.

mod alike;
mod common;
mod found;
pub mod laws;
mod ones;
mod pieces;

pub use alike::are_alike;
pub use common::Common;
pub use found::{Found, limit_found};
pub use ones::Ones;
pub use pieces::Pieces;
