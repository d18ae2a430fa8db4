//! The trees of typed scripts, which `mob_typing` makes of a script. Names are numbers, and each
//! expression has its operator, its type and its place.
#![tactic(auto)]

mod joins;
pub mod laws;
mod making;
mod typed;

pub use joins::is_left;
pub use making::{copy_of, with_args};
pub use typed::{Agg, ConstText, TExpr, Typed, TypedSelect, TypedStatement};
