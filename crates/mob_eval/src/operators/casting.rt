//! Casts.
ghost use Rattle.std.specs.Prelude.{◌≡◌, IfOk};
ghost use Rattle.mob_operators.specs.Lookup.{same_type};
ghost use Rattle.mob_value.specs.Held.{held};
ghost use Rattle.mob_eval.specs.SoFar.{operand_types};
ghost use Rattle.mob_meaning.specs.Types.{IsCastTo, IsCast};

use mob_ast::SqlType;
use mob_ordinary::numbers::unchanged;
use mob_typed::TExpr;
use mob_value::Value;
use mob_value::held::{Held, made};
use mob_value::lines::widened;
use std::alloc::{AllocError, Global};

fn is_same_type(from: SqlType, to: SqlType) -> bool
    ensures exact { result ≡ same_type from to }
{
    from == to
}

// Casts a value of the first type to the second.
fn cast_to<'a>(
    alloc: Global,
    from: SqlType,
    to: SqlType,
    operand: &Held<'a>,
) -> Result<Held<'a>, AllocError>
    ensures value { IfOk result (λ h. IsCastTo from to (held operand.now) (held h)) }
{
    match (from, to) {
        (SqlType::Int, SqlType::Numeric) => Ok(Held::Made(unchanged(operand.get()))),
        (SqlType::TInt, SqlType::TFrac) => made(widened(alloc, operand.get())),
        _ => {
            if is_same_type(from, to) {
                operand.share(alloc)
            } else {
                Ok(Held::Made(Value::Null))
            }
        }
    }
}

/// The cast of an operand to a type.
#[tactic(auto, using(mob_typed::proofs::TreeFacts::type_is))]
pub fn cast<'a>(
    alloc: Global,
    ty: SqlType,
    args: &[TExpr],
    operand: &Held<'a>,
) -> Result<Held<'a>, AllocError>
    ensures value { IfOk result (λ h. IsCast (operand_types args.now) ty (held operand.now) (held h)) }
{
    match args {
        [] => Ok(Held::Made(Value::Null)),
        [arg] => cast_to(alloc, arg.ty, ty, operand),
        _ => Ok(Held::Made(Value::Null)),
    }
}
