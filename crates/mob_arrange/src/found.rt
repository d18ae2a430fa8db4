//! A value as a row holds it.

use mob_frac::Frac;
use mob_value::Value;

/// A value as a row holds it.
#[derive(Clone, Copy)]
pub enum FoundValue<'a> {
    /// A number.
    Number(&'a Frac),
    /// Any value.
    Value(&'a Value),
    /// No value, which counts as NULL.
    Nothing,
}
