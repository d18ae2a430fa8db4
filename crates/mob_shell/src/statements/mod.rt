//! The statements of a script: their answers, and what they do to the tables.

mod answers;
mod deleting;
mod engine;
mod rows;
mod session;

pub use engine::run_session;
pub use session::Session;
