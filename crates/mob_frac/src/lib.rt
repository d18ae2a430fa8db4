//! Exact fractions: a numerator and a denominator of at most 62 bits, in lowest terms.
//!
//! Each operation returns the result of the rational numbers, or `Overflow` exactly if that result,
//! in lowest terms, has a part of more than 62 bits. Nothing is rounded, nothing panics and nothing
//! allocates. Contracts see a `Frac` as its rational number.
#![tactic(auto)]

mod fraction;
mod interpolation;
pub mod laws;
mod products;
mod reduction;
mod rough;
mod wide;

pub use fraction::{Frac, Overflow};
pub use interpolation::interpolated;
pub use products::over_product;
pub use wide::{Wide, same_ratio};
