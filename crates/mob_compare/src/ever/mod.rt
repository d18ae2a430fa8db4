//! Whether a comparison of two temporal values holds at some instant, or at every one.

mod decided;
mod piece;
mod small;
mod taken;
mod wide;

pub use decided::{always, ever};
pub use wide::{always_wide, ever_wide};
