//! A range of work, divided among worker threads. The answer is that of the whole range done at
//! once, for every number of workers.
#![tactic(auto)]

mod dividing;
mod gathering;
pub mod laws;
mod outcomes;
mod pieces;
mod shares;
mod work;

pub use dividing::fan;
pub use outcomes::Outcome;
pub use work::Work;
