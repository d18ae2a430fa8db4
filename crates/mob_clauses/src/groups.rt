//! Decides whether a SELECT is grouped, and by which columns.
ghost use Rattle.std.specs.Prelude.{◌≡◌, ◌++◌, Ok, map};
ghost use Rattle.std.specs.List.{list_any, flat_map};
ghost use Rattle.mob_ast.specs.Trees.{tree_of, item_of, select_of};
ghost use Rattle.mob_scope.specs.Answers.{AnswersAs};
ghost use Rattle.mob_scope.specs.Scopes.{scope_of};
ghost use Rattle.mob_typed.specs.Trees.{typed_of};
ghost use Rattle.mob_typed.specs.Selects.{output_of};
ghost use Rattle.mob_clauses.specs.Outputs.{is_aggregate_call, is_aggregate_item, is_grouped, group_column, grouping, is_same_column, is_column, is_ungrouped, any_ungrouped};

use mob_ast::{Expr, Item, Node, SelectTree};
use mob_list::fault::Fault;
use mob_list::items::Items;
use mob_list::text::Text;
use mob_operators::{Op, is_aggregate};
use mob_scope::columns::column_named;
use mob_scope::fault::Mistake;
use mob_scope::scope::Scope;
use mob_typed::TExpr;
use std::alloc::Global;

// Whether an expression is a call of an aggregate.
#[tactic(auto, using(mob_expression::proofs::TreeFacts::tree_is))]
fn is_aggregate_call(e: &Expr) -> bool
    ensures call { result ≡ is_aggregate_call (tree_of e.now) }
{
    match &e.node {
        Node::Call(name) => is_aggregate(name.as_str()),
        _ => false,
    }
}

fn is_aggregate_item(item: &Item) -> bool
    ensures aggregate { result ≡ is_aggregate_item (item_of item.now) }
{
    match item {
        Item::All { .. } => false,
        Item::One { value, .. } => is_aggregate_call(value),
        Item::CountAll { .. } => true,
    }
}

fn any_aggregate(items: &[Item]) -> bool
    ensures some { result ≡ list_any is_aggregate_item (map item_of items.now) }
{
    for item in items {
        if is_aggregate_item(item) {
            return true;
        }
    }
    false
}

/// Whether a SELECT is grouped: it has GROUP BY or an item that is an aggregate.
pub fn is_grouped(select: &SelectTree) -> bool
    ensures grouped { result ≡ is_grouped (select_of select.now) }
{
    if !select.groups.is_empty() {
        return true;
    }
    any_aggregate(select.items.as_slice())
}

// Adds the column that GROUP BY names, if its name is found.
#[tactic(auto, using(mob_expression::proofs::TreeFacts::tree_is))]
fn push_group_column(
    scope: &Scope<'_>,
    columns: &mut Items<(u32, u32)>,
    e: &Expr,
) -> Result<(), Fault<Mistake>>
    ensures last { AnswersAs (λ _. columns.new) result (Ok (columns.old ++ group_column (scope_of scope.now) (tree_of e.now))) }
{
    match &e.node {
        Node::Column { table, column } => match column_named(scope, table, column) {
            Ok(found) => {
                columns.push((found.from, found.column))?;
                Ok(())
            }
            Err(Fault::Because(_)) => Ok(()),
            Err(Fault::NoMemory) => Err(Fault::NoMemory),
        },
        _ => Ok(()),
    }
}

// The columns that GROUP BY names. Names that are not found are left out.
fn group_columns(
    alloc: Global,
    scope: &Scope<'_>,
    groups: &[Expr],
) -> Result<Items<(u32, u32)>, Fault<Mistake>>
    ensures found { AnswersAs (λ v. v) result (Ok (flat_map (group_column (scope_of scope.now)) (map tree_of groups.now))) }
{
    let mut columns = Items::new(alloc);
    for group in groups {
        push_group_column(scope, &mut columns, group)?;
    }
    Ok(columns)
}

/// The columns that GROUP BY names, each by the numbers of its table and column; `None` if the
/// SELECT is not grouped. Names that are not found are left out: typing GROUP BY refuses them
/// later.
pub fn grouping(
    alloc: Global,
    grouped: bool,
    scope: &Scope<'_>,
    groups: &[Expr],
) -> Result<Option<Items<(u32, u32)>>, Fault<Mistake>>
    ensures columns { AnswersAs (λ v. v) result (Ok (grouping grouped (scope_of scope.now) (map tree_of groups.now))) }
{
    if !grouped {
        return Ok(None);
    }
    Ok(Some(group_columns(alloc, scope, groups)?))
}

fn is_same_column(a: (u32, u32), b: (u32, u32)) -> bool
    ensures same { result ≡ is_same_column a b }
{
    a.0 == b.0 && a.1 == b.1
}

fn has_column(columns: &[(u32, u32)], column: (u32, u32)) -> bool
    ensures among { result ≡ list_any (is_same_column column) columns.now }
{
    for other in columns {
        if is_same_column(column, *other) {
            return true;
        }
    }
    false
}

// Whether an expression is one of these columns.
#[tactic(auto, using(mob_typed::proofs::TreeFacts::typed_is))]
fn is_column(columns: &[(u32, u32)], e: &TExpr) -> bool
    ensures among { result ≡ is_column columns.now (typed_of e.now) }
{
    match e.op {
        Op::Column { from, column } => has_column(columns, (from, column)),
        _ => false,
    }
}

/// Whether a SELECT is grouped and this expression is not a GROUP BY column.
pub fn is_ungrouped(groups: &Option<Items<(u32, u32)>>, e: &TExpr) -> bool
    ensures ungrouped { result ≡ is_ungrouped groups.now (typed_of e.now) }
{
    match groups {
        None => false,
        Some(columns) => !is_column(columns.as_slice(), e),
    }
}

/// Whether a SELECT is grouped and any of these columns is not a GROUP BY column.
pub fn any_ungrouped(groups: &Option<Items<(u32, u32)>>, columns: &[(TExpr, Text)]) -> bool
    ensures ungrouped { result ≡ any_ungrouped groups.now (map output_of columns.now) }
{
    for (value, _) in columns {
        if is_ungrouped(groups, value) {
            return true;
        }
    }
    false
}
