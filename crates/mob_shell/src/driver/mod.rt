//! From the arguments of a run to its ending.

mod decide;
mod demo;
mod judge;
mod terms;
mod top;

pub use top::run;
