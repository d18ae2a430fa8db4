//! The values of a gap of two boxes.
use mob_frac::Frac;

/// A lower bound of how near the contents of two boxes can come.
#[derive(Clone, Copy, Debug, Drop)]
pub enum Gap {
    /// Both boxes have times, and these share no instant.
    Apart,
    /// The squared distance between points of the two boxes is at least this.
    AtLeast(Frac),
}
