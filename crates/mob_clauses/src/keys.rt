//! Types the columns of GROUP BY, the keys of ORDER BY and the number of LIMIT.
ghost use Rattle.std.specs.Prelude.{◌≡◌, [], Ok, map, option_map, slice_get};
ghost use Rattle.mob_ast.specs.Trees.{tree_of, key_of};
ghost use Rattle.mob_scope.specs.Answers.{AnswersAs};
ghost use Rattle.mob_expression.specs.Steps.{TypesTo};
ghost use Rattle.mob_scope.specs.Names.{entry_from};
ghost use Rattle.mob_scope.specs.Scopes.{scope_of};
ghost use Rattle.mob_typed.specs.Trees.{typed_of};
ghost use Rattle.mob_typed.specs.Selects.{output_of, key_seen};
ghost use Rattle.mob_clauses.specs.Outputs.{outputs_seen};
ghost use Rattle.mob_clauses.specs.Keys.{is_key, group_of, typed_group, with_groups, alias_number, key_item, value_type, output_at, aliased, plain_key, key_value, typed_key, typed_keys, is_limit, limit_value, limit_of};

use crate::conditions::tree_place;
use crate::groups::is_ungrouped;
use crate::outputs::Outputs;
use mob_ast::{Expr, Key, Kind, Node, SqlType, Word};
use mob_expression::constants::column_leaf;
use mob_expression::expression::type_expr;
use mob_expression::operators::type_of;
use mob_expression::words::has_digits_alone;
use mob_list::fault::Fault;
use mob_list::items::Items;
use mob_list::text::Text;
use mob_scope::columns::column_named;
use mob_scope::fault::{Mistake, unless};
use mob_scope::scope::{Found, Scope, number};
use mob_typed::{Agg, ConstText, TExpr, copy_of};
use std::alloc::Global;

fn is_key(ty: SqlType) -> bool
    ensures key { result ≡ is_key ty }
{
    matches!(
        ty,
        SqlType::Bool | SqlType::Int | SqlType::Numeric | SqlType::Text | SqlType::Moment
    )
}

// A column that is found, as one of GROUP BY; its type must have an order.
fn group_of(alloc: Global, place: u32, found: Found) -> Result<TExpr, Fault<Mistake>>
    ensures judged { AnswersAs typed_of result (group_of place found) }
{
    unless(!is_key(found.ty), Kind::NoSuchOperator, place)?;
    Ok(column_leaf(alloc, found, place))
}

// Types a column of GROUP BY.
#[tactic(auto, using(mob_expression::proofs::TreeFacts::tree_is))]
fn typed_group(alloc: Global, scope: &Scope<'_>, e: &Expr) -> Result<TExpr, Fault<Mistake>>
    ensures typed { AnswersAs typed_of result (typed_group (scope_of scope.now) (tree_of e.now)) }
{
    match &e.node {
        Node::Column { table, column } => {
            let found = column_named(scope, table, column)?;
            group_of(alloc, e.place, found)
        }
        _ => Err(Fault::Because(Mistake {
            kind: Kind::NoSuchOperator,
            place: e.place,
        })),
    }
}

/// Types the columns of GROUP BY in order. Returns them, or the first mistake.
pub fn typed_groups(
    alloc: Global,
    scope: &Scope<'_>,
    groups: &[Expr],
) -> Result<Items<TExpr>, Fault<Mistake>>
    ensures in_order { AnswersAs (map typed_of) result (with_groups (scope_of scope.now) [] (map tree_of groups.now)) }
{
    let mut done = Items::new(alloc);
    for group in groups {
        let value = typed_group(alloc, scope, group)?;
        done.push(value)?;
    }
    Ok(done)
}

// The number of the first column with this AS name.
fn alias_index(aliases: &[(&str, usize)], name: &str) -> Option<usize>
    ensures first { result ≡ option_map (λ a. a.1) (entry_from 0 (map (λ a. (a.0.now, a.1)) aliases.now) name.now) }
{
    for (alias, index) in aliases {
        if name == *alias {
            return Some(*index);
        }
    }
    None
}

// The number of the column of the answer that a bare word means by its AS name.
#[tactic(auto, using(mob_expression::proofs::TreeFacts::tree_is))]
fn alias_number(outputs: &Outputs<'_>, e: &Expr) -> Option<usize>
    ensures by_alias { result ≡ alias_number (outputs_seen outputs.now) (tree_of e.now) }
{
    match &e.node {
        Node::Column {
            table: None,
            column,
        } => alias_index(&outputs.aliases, column.text.as_str()),
        _ => None,
    }
}

// The expression of the column with this number.
fn column_at(columns: &[(TExpr, Text)], index: usize) -> Option<&TExpr>
    ensures column { option_map (λ t. typed_of t.now) result ≡ option_map (λ o. o.0) (slice_get (map output_of columns.now) index) }
{
    let (value, _) = columns.get(index)?;
    Some(value)
}

// The type of the value of a column of the answer.
fn value_type(value: &TExpr, agg: Option<Agg>) -> SqlType
    ensures result_type { result ≡ value_type (typed_of value.now) agg }
{
    match agg {
        None => type_of(value),
        Some(agg) => agg.ty,
    }
}

// The column of the answer with this number: its number, its expression and the type of its value.
fn output_at<'a>(outputs: &'a Outputs<'_>, index: usize) -> Option<(usize, (&'a TExpr, SqlType))>
    ensures output { option_map (λ r. (r.0, (typed_of r.1.0.now, r.1.1))) result ≡ output_at (outputs_seen outputs.now) index }
{
    let value = column_at(&outputs.columns, index)?;
    let agg = outputs.aggs.get(index)?;
    Some((index, (value, value_type(value, *agg))))
}

// The column of the answer that a bare word means by its AS name.
fn aliased<'a>(outputs: &'a Outputs<'_>, e: &Expr) -> Option<(usize, (&'a TExpr, SqlType))>
    ensures by_alias { option_map (λ r. (r.0, (typed_of r.1.0.now, r.1.1))) result ≡ aliased (outputs_seen outputs.now) (tree_of e.now) }
{
    let index = alias_number(outputs, e)?;
    output_at(outputs, index)
}

// The number of the column of the answer that a key means.
fn key_item(outputs: &Outputs<'_>, key: &Key) -> Result<Option<u32>, Fault<Mistake>>
    ensures by_alias { AnswersAs (λ n. n) result (Ok (key_item (outputs_seen outputs.now) (key_of key.now))) }
{
    match aliased(outputs, &key.value) {
        None => Ok(None),
        Some((index, _)) => Ok(Some(number(index)?)),
    }
}

/// For each key that is an AS name, the number of that column of the answer; else `None`. Its only
/// error is `NoMemory`, a failed allocation.
pub fn key_items(
    alloc: Global,
    outputs: &Outputs<'_>,
    keys: &[Key],
) -> Result<Items<Option<u32>>, Fault<Mistake>>
    ensures in_order { AnswersAs (λ v. v) result (Ok (map (key_item (outputs_seen outputs.now)) (map key_of keys.now))) }
{
    let mut items = Items::new(alloc);
    for key in keys {
        let item = key_item(outputs, key)?;
        items.push(item)?;
    }
    Ok(items)
}

// Types a key that is not an AS name, and then checks its type and its group.
fn plain_key(
    alloc: Global,
    scope: &Scope<'_>,
    groups: &Option<Items<(u32, u32)>>,
    consts: &mut Items<ConstText>,
    e: &Expr,
) -> Result<TExpr, Fault<Mistake>>
    ensures judged { TypesTo typed_of result consts.new (plain_key (scope_of scope.now) groups.now (tree_of e.now) consts.old) }
{
    let value = type_expr(alloc, scope, consts, e)?;
    if !is_key(type_of(&value)) {
        return Err(Fault::Because(Mistake {
            kind: Kind::NoSuchOperator,
            place: tree_place(e),
        }));
    }
    if is_ungrouped(groups, &value) {
        return Err(Fault::Because(Mistake {
            kind: Kind::NoSuchOperator,
            place: tree_place(e),
        }));
    }
    Ok(value)
}

// The expression of a key; that of the column of the answer if the key is an AS name.
fn key_value(
    alloc: Global,
    scope: &Scope<'_>,
    groups: &Option<Items<(u32, u32)>>,
    consts: &mut Items<ConstText>,
    outputs: &Outputs<'_>,
    e: &Expr,
) -> Result<TExpr, Fault<Mistake>>
    ensures judged { TypesTo typed_of result consts.new (key_value (scope_of scope.now) groups.now (tree_of e.now) (aliased (outputs_seen outputs.now) (tree_of e.now)) consts.old) }
{
    let Some((_, (value, ty))) = aliased(outputs, e) else {
        return plain_key(alloc, scope, groups, consts, e);
    };
    unless(!is_key(ty), Kind::NoSuchOperator, tree_place(e))?;
    Ok(copy_of(alloc, value)?)
}

fn typed_key(
    alloc: Global,
    scope: &Scope<'_>,
    groups: &Option<Items<(u32, u32)>>,
    consts: &mut Items<ConstText>,
    outputs: &Outputs<'_>,
    key: &Key,
) -> Result<(TExpr, bool), Fault<Mistake>>
    ensures judged { TypesTo key_seen result consts.new (typed_key (scope_of scope.now) groups.now (outputs_seen outputs.now) (key_of key.now) consts.old) }
{
    let value = key_value(alloc, scope, groups, consts, outputs, &key.value)?;
    Ok((value, key.descending))
}

/// Types the keys of ORDER BY in order. Returns them, or the first mistake.
pub fn typed_keys(
    alloc: Global,
    scope: &Scope<'_>,
    groups: &Option<Items<(u32, u32)>>,
    consts: &mut Items<ConstText>,
    outputs: &Outputs<'_>,
    keys: &[Key],
) -> Result<Items<(TExpr, bool)>, Fault<Mistake>>
    ensures in_order { TypesTo (map key_seen) result consts.new (typed_keys (scope_of scope.now) groups.now (outputs_seen outputs.now) (map key_of keys.now) consts.old) }
{
    let mut done = Items::new(alloc);
    for key in keys {
        let value = typed_key(alloc, scope, groups, consts, outputs, key)?;
        done.push(value)?;
    }
    Ok(done)
}

fn is_limit(text: &[u8]) -> bool
    ensures digits { result ≡ is_limit text.now }
{
    has_digits_alone(text) && text.len() >= 1 && text.len() <= 18
}

// The number of a text of 1 to 18 digits; `None` for any other text.
fn limit_value(text: &str) -> Option<u64>
    ensures number { result ≡ limit_value text.now }
{
    if is_limit(text.as_bytes()) {
        text.parse::<u64>().ok()
    } else {
        None
    }
}

/// The number of LIMIT. A text other than 1 to 18 digits is `BadCount` at its place.
pub fn limit_of(limit: &Option<Word>) -> Result<Option<u64>, Fault<Mistake>>
    ensures number { AnswersAs (λ n. n) result (limit_of limit.now) }
{
    let Some(word) = limit else {
        return Ok(None);
    };
    match limit_value(word.text.as_str()) {
        Some(number) => Ok(Some(number)),
        None => Err(Fault::Because(Mistake {
            kind: Kind::BadCount,
            place: word.place,
        })),
    }
}
