//! The gate that each worker passes as it starts.

/// A gate that each worker passes as it starts. It returns nothing, so no result can depend on it.
pub trait Gate: Sync {
    /// Worker number `worker`, counted from 0, starts.
    fn enter(&self, worker: usize);
}

/// The gate that does nothing.
#[derive(Clone, Copy, Debug)]
pub struct OpenGate;

impl Gate for OpenGate {
    fn enter(&self, _worker: usize) {}
}
