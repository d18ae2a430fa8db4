//! Makes typed expressions from their arguments, and copies them.
ghost use Rattle.std.specs.Prelude.{◌≡◌, IfOk, map};
ghost use Rattle.mob_typed.specs.Trees.{typed, typed_of, typed_trees};

use crate::typed::TExpr;
use mob_ast::SqlType;
use mob_operators::Op;
use std::alloc::{AllocError, Global};

/// A typed expression with these arguments.
pub fn with_args(op: Op, ty: SqlType, place: u32, args: Vec<TExpr>) -> TExpr
    ensures tree { typed_of result ≡ typed op ty place (typed_trees (map typed_of args.items)) }
{
    TExpr {
        op,
        ty,
        place,
        args,
    }
}

/// A copy of a typed tree. An error means that an allocation failed.
#[tactic(auto, using(crate::proofs::TreeFacts::typed_is))]
pub fn copy_of(alloc: Global, value: &TExpr) -> Result<TExpr, AllocError>
    ensures same { IfOk result (λ t. typed_of t ≡ typed_of value.now) }
{
    let mut args = Vec::new(alloc);
    for arg in &value.args {
        let copy = copy_of(alloc, arg)?;
        args.push(copy)?;
    }
    Ok(with_args(value.op, value.ty, value.place, args))
}
