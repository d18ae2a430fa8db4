//! The ordinary operations on two base values that have no formula.

ghost use Rattle.std.specs.Prelude.{◌≡◌, ◌++◌, IfOk, string_bytes};
ghost use Rattle.mob_arith.specs.Operations.{both_hold, one_holds, differ, text_of};

use mob_list::text::Text;
use mob_slice::BaseValue;
use std::alloc::{AllocError, Global};

/// An ordinary operation on two base values. It never overflows.
pub trait Operation<A, B> {
    /// The type of the result.
    type Base: BaseValue + Drop;

    ghost result_of: { A → B → Self.Base };

    /// The result. The only error is a failed allocation.
    fn apply(alloc: Global, a: &A, b: &B) -> Result<Self::Base, AllocError>
        ensures answer { IfOk result (λ z. z ≡ result_of a.now b.now) };
}

/// Whether both are true.
pub(crate) struct Conjunction;

impl Operation<bool, bool> for Conjunction {
    type Base = bool;

    ghost result_of = { both_hold };

    fn apply(alloc: Global, a: &bool, b: &bool) -> Result<bool, AllocError> {
        Ok(*a && *b)
    }
}

/// Whether at least one is true.
pub(crate) struct Disjunction;

impl Operation<bool, bool> for Disjunction {
    type Base = bool;

    ghost result_of = { one_holds };

    fn apply(alloc: Global, a: &bool, b: &bool) -> Result<bool, AllocError> {
        Ok(*a || *b)
    }
}

/// Whether exactly one is true.
pub(crate) struct Exclusion;

impl Operation<bool, bool> for Exclusion {
    type Base = bool;

    ghost result_of = { differ };

    fn apply(alloc: Global, a: &bool, b: &bool) -> Result<bool, AllocError> {
        Ok(if *b { !*a } else { *a })
    }
}

/// The first text followed by the second.
pub struct Joining;

impl Operation<Text, Text> for Joining {
    type Base = Text;

    ghost result_of = { text_of };

    fn apply(alloc: Global, a: &Text, b: &Text) -> Result<Text, AllocError> {
        Ok(Text::from_string(joined(alloc, a.as_str(), b.as_str())?))
    }
}

// The first text followed by the second.
fn joined(alloc: Global, a: &str, b: &str) -> Result<String, AllocError>
    ensures both { IfOk result (λ text. string_bytes text ≡ a.now ++ b.now) }
{
    let mut text = String::from_str(alloc, a)?;
    text.push_str(b)?;
    Ok(text)
}
