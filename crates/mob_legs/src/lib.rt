//! The difference of two moving points on a piece of time, and rectangles over runs of slices.
//!
//! The nearness of two points on one piece is decided in numbers of any size (`broad_reaches`,
//! `broad_approach`). `covers_of` makes the rectangles. The crate is apart from `mob_near`, which
//! takes long to prove.
#![tactic(auto)]

mod broad;
mod covers;
mod legs;

pub use broad::piece::{broad_approach, broad_reaches};
pub use covers::{Cover, Covers, covers_of};
pub use legs::{Foot, Leg, Squares};
