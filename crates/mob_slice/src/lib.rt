//! Temporal values as lists of slices, in the sliced representation of Forlizzi, Güting, Nardelli
//! and Schneider ("A Data Model and Data Structures for Moving Objects Databases", SIGMOD 2000).
//!
//! A slice is a span with a course, which gives the value at each instant of the span. A temporal
//! value is a normal list of slices: of all lists of slices with the same value at each instant,
//! exactly one is normal.
//!
//! `course` has the trait of courses, and the base values that a steady course may hold; `line` has
//! lines and their comparison; `slice` has a slice and pieces of one.
//!
//! Lifting (`mob_lift`, which has the code), restricting and clipping make slices piece by piece,
//! and share their definitions. `specs/OnPiece.antt` says what an operator returns on one piece,
//! and `proofs/OnOnePiece.antt` shows that one slice with the wanted values meets it.
//! `specs/Piecewise.antt` says what the pieces make together, in order. `proofs/Making.antt` shows
//! that this is in order too and has, at each instant of a piece, the value returned there.
//! `proofs/JoinedFirsts.antt` has the first entry that does not fit in two concatenated lists, and
//! `proofs/Options.antt` has lemmas on options.
#![tactic(auto)]

mod comparison;
mod course;
mod formula;
pub mod laws;
mod line;
mod mode;
mod moving;
mod operand;
mod part;
mod side;
mod slice;
mod steady;

pub use comparison::{Compared, Gaps, Ranked, Rel};
pub use course::Course;
pub use course::base_value::BaseValue;
pub use formula::Formula;
pub use line::{Line, PlaneLine};
pub use mode::{Mode, mode_of};
pub use moving::Moving;
pub use operand::Operand;
pub use part::{One, Pair, Part};
pub use side::{Piece, Side};
pub use slice::Slice;
pub use slice::cutting::{cut, cut_by, limit};
pub use steady::Steady;
