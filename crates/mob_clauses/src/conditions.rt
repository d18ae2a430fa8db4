//! Types the conditions of a SELECT: WHERE and ON.
ghost use Rattle.std.specs.Prelude.{◌≡◌, Ok, map, option_map};
ghost use Rattle.mob_ast.specs.Trees.{tree_of, from_of};
ghost use Rattle.mob_scope.specs.Answers.{AnswersAs};
ghost use Rattle.mob_expression.specs.Steps.{TypesTo};
ghost use Rattle.mob_scope.specs.Scopes.{scope_of};
ghost use Rattle.mob_expression.proofs.Behind.{behind};
ghost use Rattle.mob_typed.specs.Trees.{typed_of};
ghost use Rattle.mob_clauses.specs.Conditions.{tree_place, is_bool, condition, source_start, seen_by_on, joins_from, typed_joins};

use mob_ast::{Expr, FromTable, Kind, SqlType};
use mob_expression::expression::type_expr;
use mob_expression::operators::type_of;
use mob_list::fault::Fault;
use mob_list::items::Items;
use mob_scope::fault::Mistake;
use mob_scope::scope::{Scope, number};
use mob_typed::{ConstText, TExpr};
use std::alloc::Global;

/// The place of the root of an expression.
#[tactic(auto, using(mob_expression::proofs::TreeFacts::tree_is))]
pub fn tree_place(e: &Expr) -> u32
    ensures own_place { result ≡ tree_place (tree_of e.now) }
{
    e.place
}

/// Types a condition. Returns it, or the first mistake. It must be a bool; an expression of another
/// type is `NoSuchOperator` at its place.
pub fn condition(
    alloc: Global,
    scope: &Scope<'_>,
    consts: &mut Items<ConstText>,
    cond: &Option<Expr>,
) -> Result<Option<TExpr>, Fault<Mistake>>
    ensures is_bool { TypesTo (option_map typed_of) result consts.new (condition (scope_of scope.now) (option_map tree_of cond.now) consts.old) }
{
    let Some(cond) = cond else {
        return Ok(None);
    };
    let value = type_expr(alloc, scope, consts, cond)?;
    if !is_bool(type_of(&value)) {
        return Err(Fault::Because(Mistake {
            kind: Kind::NoSuchOperator,
            place: tree_place(cond),
        }));
    }
    Ok(Some(value))
}

fn is_bool(ty: SqlType) -> bool
    ensures truth { result ≡ is_bool ty }
{
    matches!(ty, SqlType::Bool)
}

// The number of the first table in the source of this table of FROM.
fn source_start(start: usize, place: usize, on: &Option<Expr>) -> usize
    ensures begins { result ≡ source_start start place (option_map tree_of on.now) }
{
    match on {
        None => place,
        Some(_) => start,
    }
}

// What the ON of this table of FROM sees: the tables of its source up to the table itself. A number
// beyond 32 bits is reported as out of memory, and so is a table that FROM does not have.
#[tactic(auto, using(crate::proofs::Joined::part_seen))]
fn seen_by_on<'a>(
    scope: &Scope<'a>,
    start: usize,
    place: usize,
) -> Result<Scope<'a>, Fault<Mistake>>
    ensures part { AnswersAs scope_of result (Ok (seen_by_on (scope_of scope.now) start place)) }
{
    let Some(end) = place.checked_add(1) else {
        return Err(Fault::NoMemory);
    };
    if start > end {
        return Err(Fault::NoMemory);
    }
    if end > scope.from.len() {
        return Err(Fault::NoMemory);
    }
    let first = number(start)?;
    Ok(Scope {
        from: &scope.from[start..end],
        first,
        statement: scope.statement,
    })
}

// The ON of a table of FROM.
fn typed_on(
    alloc: Global,
    scope: &Scope<'_>,
    consts: &mut Items<ConstText>,
    start: usize,
    place: usize,
    on: &Option<Expr>,
) -> Result<Option<TExpr>, Fault<Mistake>>
    ensures typed { TypesTo (option_map typed_of) result consts.new (condition (seen_by_on (scope_of scope.now) start place) (option_map tree_of on.now) consts.old) }
{
    let seen = seen_by_on(scope, start, place)?;
    condition(alloc, &seen, consts, on)
}

// The ON of each table of FROM after the first, appended to the entry of the first.
fn joins_behind(
    alloc: Global,
    scope: &Scope<'_>,
    consts: &mut Items<ConstText>,
    first: Items<Option<TExpr>>,
    others: &[FromTable],
) -> Result<Items<Option<TExpr>>, Fault<Mistake>>
    ensures in_order { TypesTo (map (option_map typed_of)) result consts.new (behind (map (option_map typed_of) first) (joins_from (scope_of scope.now) 0 1 (map from_of others.now)) consts.old) }
{
    let mut joins = first;
    let mut start: usize = 0;
    let mut place: usize = 1;
    for entry in others {
        start = source_start(start, place, &entry.on);
        let on = typed_on(alloc, scope, consts, start, place, &entry.on)?;
        joins.push(on)?;
        let Some(next) = place.checked_add(1) else {
            return Err(Fault::NoMemory);
        };
        place = next;
    }
    Ok(joins)
}

/// Types the ON of each table of FROM in order. The first table has none. Returns them, or the
/// first mistake.
pub fn typed_joins(
    alloc: Global,
    scope: &Scope<'_>,
    consts: &mut Items<ConstText>,
    from: &[FromTable],
) -> Result<Items<Option<TExpr>>, Fault<Mistake>>
    ensures in_order { TypesTo (map (option_map typed_of)) result consts.new (typed_joins (scope_of scope.now) (map from_of from.now) consts.old) }
{
    let mut joins = Items::new(alloc);
    let Some((_, others)) = from.split_first() else {
        return Ok(joins);
    };
    joins.push(None)?;
    joins_behind(alloc, scope, consts, joins, others)
}
