//! The nearness of two points on one piece of time, in numbers of any size. The only error is a
//! failed allocation.

mod foot;
mod leg;
pub mod piece;
