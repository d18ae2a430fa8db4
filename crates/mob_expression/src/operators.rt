//! Applies operators to typed operands.
ghost use Rattle.std.specs.Prelude.{◌≡◌, ◌||◌, List, option_map, map, IfOk};
ghost use Rattle.mob_operators.specs.Aggregates.{is_aggregate};
ghost use Rattle.mob_operators.specs.Lookup.{has_function};
ghost use Rattle.mob_operators.specs.Table.{table};
ghost use Rattle.mob_ast.specs.Trees.{tree_of, trees_of};
ghost use Rattle.mob_scope.specs.Answers.{AnswersAs};
ghost use Rattle.mob_typed.specs.Trees.{TypedTree, typed, typed_of, typed_trees, type_of, types_of};
ghost use Rattle.mob_expression.specs.Words.{is_zero};
ghost use Rattle.mob_expression.specs.Expressions.{is_signed, digits_of, divisor_of, missing, missing_sign, are_linear, divides_by_zero, operated, can_cast, can_cast_all, cast, finished};

use crate::words::{is_zero, type_named};
use mob_ast::{Expr, Kind, Node, SqlType, TypeWord};
use mob_list::fault::Fault;
use mob_operators::{Op, Spelling, is_aggregate, is_function, is_irrational, operator_for};
use mob_scope::fault::Mistake;
use mob_typed::{TExpr, with_args};
use std::alloc::{AllocError, Global};

/// The type of a typed expression.
#[tactic(auto, using(mob_typed::proofs::TreeFacts::typed_is))]
pub fn type_of(e: &TExpr) -> SqlType
    ensures own_type { result ≡ type_of (typed_of e.now) }
{
    e.ty
}

// The types of typed expressions.
fn types_of(alloc: Global, args: &[TExpr]) -> Result<Vec<SqlType>, AllocError>
    ensures in_order { IfOk result (λ v. v.items ≡ types_of (map typed_of args.now)) }
{
    let mut types = Vec::new(alloc);
    for arg in args {
        types.push(type_of(arg))?;
    }
    Ok(types)
}

/// Whether a sign is `-` or `+`.
pub fn is_signed(sign: &str) -> bool
    ensures sign { result ≡ is_signed sign.now }
{
    sign == "-" || sign == "+"
}

// Whether a number literal under any number of signs is 0; `None` for any other expression.
#[tactic(auto, using(crate::proofs::TreeFacts::digits_is))]
fn literal_of(e: &Expr) -> Option<bool>
    ensures zero { result ≡ option_map is_zero (digits_of (tree_of e.now)) }
{
    match &e.node {
        Node::Number(text) => Some(is_zero(text.as_str())),
        Node::Sign(sign) => match e.args.as_slice() {
            [inner] => {
                if is_signed(sign.as_str()) {
                    literal_of(inner)
                } else {
                    None
                }
            }
            _ => None,
        },
        _ => None,
    }
}

// Whether the second of two operands is a number literal that is 0; `None` if it is not a number
// literal.
#[tactic(auto, using(crate::proofs::TreeFacts::divisor_second, crate::proofs::TreeFacts::divisor_few, crate::proofs::TreeFacts::divisor_many))]
fn divisor_of(args: &[Expr]) -> Option<bool>
    ensures zero { result ≡ option_map is_zero (divisor_of (trees_of args.now)) }
{
    match args {
        [_, second] => literal_of(second),
        _ => None,
    }
}

// Whether this is the name of a function or an aggregate.
fn is_known(name: &str) -> bool
    ensures known { result ≡ (has_function table name.now || is_aggregate name.now) }
{
    is_function(name) || is_aggregate(name)
}

// Why the table has no line for an operator with these types.
fn missing(form: Spelling, name: &str, types: &[SqlType]) -> Kind
    ensures cause { result ≡ missing form name.now types.now }
{
    match form {
        Spelling::Word => Kind::NoSuchOperator,
        Spelling::Sign => missing_sign(name, types),
        Spelling::Call => {
            if is_known(name) {
                Kind::NoSuchOperator
            } else {
                Kind::UnknownName
            }
        }
    }
}

fn missing_sign(name: &str, types: &[SqlType]) -> Kind
    ensures cause { result ≡ missing_sign name.now types.now }
{
    if is_irrational(Spelling::Sign, name) {
        return Kind::Irrational;
    }
    if name == "*" && are_linear(types) {
        return Kind::LinearProduct;
    }
    Kind::NoSuchOperator
}

fn are_linear(types: &[SqlType]) -> bool
    ensures linear { result ≡ are_linear types.now }
{
    match types {
        [SqlType::TFrac, SqlType::TFrac] => true,
        _ => false,
    }
}

fn divides_by_zero(op: Op, divisor: Option<bool>) -> bool
    ensures by_zero { result ≡ divides_by_zero op divisor }
{
    match (op, divisor) {
        (Op::Divide, Some(zero)) => zero,
        _ => false,
    }
}

// The operator for operands of these types, and the type of its result. `divisor` says whether the
// second operand is a number literal that is 0; `None` if it is not a number literal.
fn operated(
    form: Spelling,
    name: &str,
    place: u32,
    divisor: Option<bool>,
    types: &[SqlType],
) -> Result<(Op, SqlType), Fault<Mistake>>
    ensures typed { (ts : List TypedTree) → types.now ≡ types_of ts → AnswersAs (λ r. typed r.0 r.1 place (typed_trees ts)) result (operated form name.now place divisor ts) }
{
    let Some((op, ty)) = operator_for(form, name, types, divisor.is_some()) else {
        return Err(Fault::Because(Mistake {
            kind: missing(form, name, types),
            place,
        }));
    };
    if divides_by_zero(op, divisor) {
        return Err(Fault::Because(Mistake {
            kind: Kind::ZeroDivisor,
            place,
        }));
    }
    Ok((op, ty))
}

fn can_cast(from: SqlType, to: SqlType) -> bool
    ensures allowed { result ≡ can_cast from to }
{
    match (from, to) {
        (SqlType::Int, SqlType::Numeric) => true,
        (SqlType::TInt, SqlType::TFrac) => true,
        _ => from == to,
    }
}

// A cast of operands of these types, and the type of its result.
fn cast(word: &TypeWord, place: u32, types: &[SqlType]) -> Result<(Op, SqlType), Fault<Mistake>>
    ensures typed { (ts : List TypedTree) → types.now ≡ types_of ts → AnswersAs (λ r. typed r.0 r.1 place (typed_trees ts)) result (cast word.now place ts) }
{
    let Some(ty) = type_named(word) else {
        return Err(Fault::Because(Mistake {
            kind: Kind::UnknownName,
            place: word.name.place,
        }));
    };
    if !can_cast_all(types, ty) {
        return Err(Fault::Because(Mistake {
            kind: Kind::NoSuchOperator,
            place,
        }));
    }
    Ok((Op::Cast, ty))
}

fn can_cast_all(types: &[SqlType], to: SqlType) -> bool
    ensures one_allowed { result ≡ can_cast_all types.now to }
{
    match types {
        [from] => can_cast(*from, to),
        _ => false,
    }
}

// The operator of a node for operands of these types, and the type of its result.
#[tactic(auto, unfolding(crate::specs::Expressions::finished))]
fn operator_of(
    node: &Node,
    place: u32,
    args: &[Expr],
    types: &[SqlType],
) -> Result<(Op, SqlType), Fault<Mistake>>
    ensures typed { (ts : List TypedTree) → types.now ≡ types_of ts → AnswersAs (λ r. typed r.0 r.1 place (typed_trees ts)) result (finished node.now place (trees_of args.now) ts) }
{
    match node {
        Node::Call(name) => operated(Spelling::Call, name.as_str(), place, None, types),
        Node::Sign(sign) => operated(
            Spelling::Sign,
            sign.as_str(),
            place,
            divisor_of(args),
            types,
        ),
        Node::Cast(word) => cast(word, place, types),
        Node::Not => operated(Spelling::Word, "not", place, None, types),
        Node::And => operated(Spelling::Word, "and", place, None, types),
        Node::Or => operated(Spelling::Word, "or", place, None, types),
        Node::IsNull => operated(Spelling::Word, "is null", place, None, types),
        Node::IsNotNull => operated(Spelling::Word, "is not null", place, None, types),
        _ => Err(Fault::Because(Mistake {
            kind: Kind::NoSuchOperator,
            place,
        })),
    }
}

/// Applies the operator of a node to its typed operands.
pub(crate) fn finished(
    alloc: Global,
    node: &Node,
    place: u32,
    args: &[Expr],
    typed_args: Vec<TExpr>,
) -> Result<TExpr, Fault<Mistake>>
    ensures typed { AnswersAs typed_of result (finished node.now place (trees_of args.now) (map typed_of typed_args.items)) }
{
    let types = types_of(alloc, &typed_args)?;
    let (op, ty) = operator_of(node, place, args, &types)?;
    Ok(with_args(op, ty, place, typed_args))
}
