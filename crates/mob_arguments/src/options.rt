//! The settings of mobsql.

use mob_scalar::Epoch;

/// The settings that a command line gives.
#[derive(Clone, Copy, Debug, PartialEq, Eq)]
pub struct Settings {
    /// How many workers share the outer rows of a query: from 1 to 64; 1 by default.
    pub workers: u32,
    /// The day from whose midnight instants count; 2000-01-01 by default.
    pub epoch: Epoch,
    /// How many ships the demo has, from 1 to 1000; `None` for a run over the script and the files
    /// that are handed in.
    pub demo: Option<u32>,
    /// Whether the numbers between an operator's operands and its result have any size; by default
    /// they fit into 62 bits.
    pub wide: bool,
}
