//! The parts of a temporal literal, before it becomes a value.
use mob_frac::Frac;
use mob_list::items::Items;

/// A value at an instant, from one `value@moment` of a literal.
#[derive(Drop)]
pub struct Written<B> {
    /// The value.
    pub value: B,
    /// The instant, in seconds since midnight UTC of the epoch day.
    pub instant: Frac,
}

/// One `value@moment` of a literal, before its numbers are known to fit.
#[derive(Drop)]
pub struct Noted<B> {
    /// The value; `None` if its number does not fit.
    pub value: Option<B>,
    /// The instant, in seconds since midnight UTC of the epoch day; `None` if it does not fit.
    pub instant: Option<Frac>,
}

/// Instants between two brackets, each of which says whether its end is included.
#[derive(Drop)]
pub struct Sequence<A> {
    /// Whether the first instant is included.
    pub lower_inc: bool,
    /// The instants, in written order.
    pub instants: Items<A>,
    /// Whether the last instant is included.
    pub upper_inc: bool,
}

/// A temporal literal: its sequences, and whether it asks for step interpolation.
#[derive(Drop)]
pub struct Literal<A> {
    /// Whether `Interp=Step;` is before the sequences.
    pub says_step: bool,
    /// The sequences, in written order.
    pub sequences: Items<Sequence<A>>,
}

/// The prefixes that are allowed before a literal.
#[derive(Drop)]
pub struct Prefixes {
    /// Whether `Interp=Step;` is allowed.
    pub step: bool,
    /// Whether `SRID=0;` is allowed.
    pub srid: bool,
}
