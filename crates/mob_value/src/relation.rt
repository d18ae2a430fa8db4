//! The comparison that a sign asks for.
ghost use Rattle.std.specs.Prelude.{◌≡◌};
ghost use Rattle.mob_value.specs.Relations.{rel_of};

use mob_ast::Cmp;
use mob_slice::Rel;

/// The comparison of courses for a sign.
pub fn rel_of(sign: Cmp) -> Rel
    ensures value { result ≡ rel_of sign }
{
    match sign {
        Cmp::Eq => Rel::Eq,
        Cmp::Ne => Rel::Ne,
        Cmp::Lt => Rel::Lt,
        Cmp::Le => Rel::Le,
        Cmp::Gt => Rel::Gt,
        Cmp::Ge => Rel::Ge,
    }
}
