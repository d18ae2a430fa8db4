//! Which of the three signs of a comparison over time.

/// At which instants a sign evaluates its comparison, among those at which both operands are
/// defined.
#[derive(Clone, Copy, Debug, PartialEq, Eq)]
pub enum When {
    /// `#`: at each of them, which gives a tbool.
    Each,
    /// `?`: at some instant.
    Ever,
    /// `%`: at every instant.
    Always,
}
