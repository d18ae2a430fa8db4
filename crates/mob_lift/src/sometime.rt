//! The answer of an ever comparison, piece by piece.
ghost use Rattle.std.specs.Prelude.{◌≡◌};
ghost use Rattle.mob_lift.specs.Sometime.{either};

/// The answer so far, or the answer of one more piece.
pub fn either(found: Option<bool>, here: bool) -> bool
    ensures value { result ≡ either found here }
{
    match found {
        Some(before) => before || here,
        None => here,
    }
}
