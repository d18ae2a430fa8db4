//! Spans of time: the instants between two ends, each of which is included or not.
//!
//! An instant is a rational number of any size. The two ends of a span are fractions that fit. A
//! set of instants is a list of spans that do not touch.
#![tactic(auto)]

mod flags;
pub mod laws;
mod remainder;
mod set;
mod span;
mod spanned;
mod walk;

pub use flags::same_bool;
pub use remainder::{remainders, whole};
pub use set::SpanSet;
pub use span::Span;
pub use spanned::Spanned;
pub use walk::{Met, SharedPieces};
