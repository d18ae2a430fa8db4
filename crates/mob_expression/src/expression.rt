//! Types expressions.
ghost use Rattle.std.specs.Prelude.{map};
ghost use Rattle.mob_ast.specs.Trees.{tree_of, trees_of};
ghost use Rattle.mob_expression.specs.Steps.{TypesTo};
ghost use Rattle.mob_typed.specs.Trees.{typed_of};
ghost use Rattle.mob_scope.specs.Scopes.{scope_of};
ghost use Rattle.mob_expression.specs.Expressions.{typed_expression, typed_operands};

use crate::constants::typed_before_operands;
use crate::operators::finished;
use mob_ast::Expr;
use mob_list::fault::Fault;
use mob_list::items::Items;
use mob_scope::fault::Mistake;
use mob_scope::scope::Scope;
use mob_typed::{ConstText, TExpr};
use std::alloc::Global;

/// The typed tree of an expression, or the first mistake. New constants are appended to `consts`.
#[cycle(expression)]
pub fn type_expr(
    alloc: Global,
    scope: &Scope<'_>,
    consts: &mut Items<ConstText>,
    e: &Expr,
) -> Result<TExpr, Fault<Mistake>>
    ensures typed { TypesTo typed_of result consts.new (typed_expression (scope_of scope.now) (tree_of e.now) consts.old) }
{
    if let Some(done) = typed_before_operands(alloc, scope, consts, &e.node, e.place, &e.args)? {
        return Ok(done);
    }
    let args = type_operands(alloc, scope, consts, &e.args)?;
    finished(alloc, &e.node, e.place, &e.args, args)
}

/// The typed trees of operands from left to right, or the first mistake.
#[cycle(expression)]
pub fn type_operands(
    alloc: Global,
    scope: &Scope<'_>,
    consts: &mut Items<ConstText>,
    operands: &[Expr],
) -> Result<Vec<TExpr>, Fault<Mistake>>
    ensures in_order { TypesTo (λ v. map typed_of v.items) result consts.new (typed_operands (scope_of scope.now) (trees_of operands.now) consts.old) }
{
    let mut args = Vec::new(alloc);
    for operand in operands {
        let typed = type_expr(alloc, scope, consts, operand)?;
        args.push(typed)?;
    }
    Ok(args)
}
