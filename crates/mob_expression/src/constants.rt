//! Types constants, columns and everything else that does not depend on typed operands.
ghost use Rattle.std.specs.Prelude.{◌≡◌, None, Some, option_map};
ghost use Rattle.mob_ast.specs.Trees.{tree_of, trees_of};
ghost use Rattle.mob_expression.specs.Steps.{TypesTo};
ghost use Rattle.mob_typed.specs.Trees.{typed, typed_of, none};
ghost use Rattle.mob_scope.specs.Scopes.{scope_of};
ghost use Rattle.mob_expression.specs.Expressions.{next_constant, constant, settled, typed_string, only, lone_string, cast_of_string, typed_before_operands};

use crate::words::{literal_type, number_type, type_named};
use mob_ast::{Expr, Kind, Node, SqlType, TypeWord};
use mob_list::fault::Fault;
use mob_list::items::Items;
use mob_list::text::Text;
use mob_operators::{Op, Spelling, is_irrational};
use mob_scope::columns::column_named;
use mob_scope::fault::{Mistake, unless};
use mob_scope::scope::{Found, Scope, number};
use mob_typed::{ConstText, TExpr, with_args};
use std::alloc::Global;

/// A typed expression without arguments.
pub fn leaf(alloc: Global, op: Op, ty: SqlType, place: u32) -> TExpr
    ensures tree { typed_of result ≡ typed op ty place none }
{
    with_args(op, ty, place, Vec::new(alloc))
}

/// The typed expression of a column.
pub fn column_leaf(alloc: Global, found: Found, place: u32) -> TExpr
    ensures tree { typed_of result ≡ typed (Op.Column found.from found.column) found.ty place none }
{
    let op = Op::Column {
        from: found.from,
        column: found.column,
    };
    leaf(alloc, op, found.ty, place)
}

/// Appends a constant of this type and text, for the statement with this number. Returns the number
/// of the constant, from 0. Its only error is `NoMemory`, a failed allocation.
pub fn next_constant(
    alloc: Global,
    statement: u32,
    consts: &mut Items<ConstText>,
    ty: SqlType,
    text: &str,
    place: u32,
) -> Result<u32, Fault<Mistake>>
    ensures next { TypesTo (λ n. n) result consts.new (next_constant statement ty text.now place consts.old) }
{
    let index = number(consts.len())?;
    let text = Text::from_str(alloc, text)?;
    consts.push(ConstText {
        ty,
        text,
        statement,
        place,
    })?;
    Ok(index)
}

/// The only one of these expressions; `None` if there is not exactly one.
#[tactic(auto, using(crate::proofs::TreeFacts::only_one, crate::proofs::TreeFacts::only_none, crate::proofs::TreeFacts::only_more))]
pub fn only(args: &[Expr]) -> Option<&Expr>
    ensures alone { option_map (λ e. tree_of e.now) result ≡ only (trees_of args.now) }
{
    match args {
        [one] => Some(one),
        _ => None,
    }
}

// The string and its place, if the only operand is a bare string.
fn lone_string(args: &[Expr]) -> Option<(&str, u32)>
    ensures alone { option_map (λ r. (r.0.now, r.1)) result ≡ lone_string (trees_of args.now) }
{
    let only = only(args)?;
    match &only.node {
        Node::Str(text) => Some((text.as_str(), only.place)),
        _ => None,
    }
}

// Types a cast of a bare string, which is read as a constant of that type.
fn cast_of_string(
    alloc: Global,
    scope: &Scope<'_>,
    consts: &mut Items<ConstText>,
    word: &TypeWord,
    place: u32,
    args: &[Expr],
) -> Result<Option<TExpr>, Fault<Mistake>>
    ensures at_once { TypesTo (option_map typed_of) result consts.new (cast_of_string (scope_of scope.now) word.now place (lone_string (trees_of args.now)) consts.old) }
{
    let Some((text, text_place)) = lone_string(args) else {
        return Ok(None);
    };
    let Some(ty) = type_named(word) else {
        return Err(Fault::Because(Mistake {
            kind: Kind::UnknownName,
            place: word.name.place,
        }));
    };
    let index = next_constant(alloc, scope.statement, consts, ty, text, text_place)?;
    let mut args = Vec::new(alloc);
    args.push(leaf(alloc, Op::Const(index), ty, text_place))?;
    Ok(Some(with_args(Op::Cast, ty, place, args)))
}

// The typed expression of a constant with this type and text, which takes the next number.
fn settled_constant(
    alloc: Global,
    scope: &Scope<'_>,
    consts: &mut Items<ConstText>,
    ty: SqlType,
    text: &str,
    place: u32,
) -> Result<Option<TExpr>, Fault<Mistake>>
    ensures at_once { TypesTo (option_map typed_of) result consts.new (settled (constant (scope_of scope.now) ty text.now place) consts.old) }
{
    let index = next_constant(alloc, scope.statement, consts, ty, text, place)?;
    Ok(Some(leaf(alloc, Op::Const(index), ty, place)))
}

// Types a typed string, which is a constant.
fn settled_string(
    alloc: Global,
    scope: &Scope<'_>,
    consts: &mut Items<ConstText>,
    word: &TypeWord,
    text: &str,
    place: u32,
) -> Result<Option<TExpr>, Fault<Mistake>>
    ensures at_once { TypesTo (option_map typed_of) result consts.new (settled (typed_string (scope_of scope.now) word.now text.now place) consts.old) }
{
    let Some(ty) = literal_type(word, text) else {
        return Err(Fault::Because(Mistake {
            kind: Kind::UnknownName,
            place: word.name.place,
        }));
    };
    settled_constant(alloc, scope, consts, ty, text, place)
}

/// Types what does not depend on typed operands: constants, columns, casts of a bare string, and
/// functions that are refused because their results may be irrational. `None` for everything else.
#[tactic(auto, unfolding(crate::specs::Expressions::typed_before_operands))]
pub(crate) fn typed_before_operands(
    alloc: Global,
    scope: &Scope<'_>,
    consts: &mut Items<ConstText>,
    node: &Node,
    place: u32,
    args: &[Expr],
) -> Result<Option<TExpr>, Fault<Mistake>>
    ensures settled { TypesTo (option_map typed_of) result consts.new (typed_before_operands (scope_of scope.now) node.now place (trees_of args.now) consts.old) }
{
    match node {
        Node::Null => Ok(Some(leaf(alloc, Op::Null, SqlType::Text, place))),
        Node::True => settled_constant(alloc, scope, consts, SqlType::Bool, "true", place),
        Node::False => settled_constant(alloc, scope, consts, SqlType::Bool, "false", place),
        Node::Number(text) => {
            let text = text.as_str();
            settled_constant(alloc, scope, consts, number_type(text), text, place)
        }
        Node::Str(text) => {
            settled_constant(alloc, scope, consts, SqlType::Text, text.as_str(), place)
        }
        Node::Literal { ty, text } => {
            settled_string(alloc, scope, consts, ty, text.as_str(), place)
        }
        Node::Column { table, column } => {
            let found = column_named(scope, table, column)?;
            Ok(Some(column_leaf(alloc, found, place)))
        }
        Node::Call(name) => {
            let irrational = is_irrational(Spelling::Call, name.as_str());
            unless(irrational, Kind::Irrational, place)?;
            Ok(None)
        }
        Node::Cast(word) => cast_of_string(alloc, scope, consts, word, place, args),
        Node::Sign(_) | Node::Not | Node::And | Node::Or | Node::IsNull | Node::IsNotNull => Ok(
            None,
        ),
    }
}
