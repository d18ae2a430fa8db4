//! How a run ends: its status, and the line that it leaves in the notes.
#![tactic(auto)]

mod ending;
mod note;
pub mod pieces;

pub use ending::Ending;
pub use note::tell;
