//! Equality of booleans.
ghost use Rattle.std.specs.Prelude.{◌≡◌};
ghost use Rattle.mob_span.specs.Flags.{same_bool};

/// Whether two booleans are equal.
pub fn same_bool(a: bool, b: bool) -> bool
    ensures value { result ≡ same_bool a b }
{
    a == b
}
