//! What a script reads before it runs: its literals and the files of its COPY statements, in
//! written order.
#![tactic(auto)]

mod check;
mod checking;
pub mod laws;
mod loading;
mod order;
pub mod order_laws;
mod program;
mod script;

pub use program::{LoadEnd, Program};
pub use script::load;
