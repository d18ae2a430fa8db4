//! Types the select list, which gives the columns of the answer.
ghost use Rattle.std.specs.Prelude.{◌≡◌, ◌++◌, ◌∷◌, [], map, option_map, length, IfOk, OnOk, Ok};
ghost use Rattle.mob_ast.specs.Trees.{tree_of, trees_of, item_of, one};
ghost use Rattle.mob_scope.specs.Answers.{AnswersAs};
ghost use Rattle.mob_expression.specs.Steps.{TypesTo};
ghost use Rattle.mob_scope.specs.Scopes.{sources_of, scope_of};
ghost use Rattle.mob_typed.specs.Trees.{typed, typed_of, none};
ghost use Rattle.mob_typed.specs.Selects.{output_of};
ghost use Rattle.mob_clauses.specs.Outputs.{columns_of_table, all_outputs, numbered_name, tree_name, output_name, count_name, with_alias, value_seen, counting, lone_operand, aggregated, aggregate_value, plain_value, item_value, with_output, no_agg, with_every, with_item, with_items, outputs_seen, no_outputs};

use crate::conditions::tree_place;
use crate::groups::{any_ungrouped, is_ungrouped};
use mob_ast::{Expr, Item, Kind, Node, SqlType, Word};
use mob_expression::constants::leaf;
use mob_expression::expression::{type_expr, type_operands};
use mob_expression::operators::type_of;
use mob_list::fault::Fault;
use mob_list::items::Items;
use mob_list::text::Text;
use mob_operators::{AggKind, Op, aggregate_row, is_aggregate};
use mob_scope::column_list::Columns;
use mob_scope::fault::Mistake;
use mob_scope::scope::{Scope, ScopeTable, number};
use mob_typed::{Agg, ConstText, TExpr};
use std::alloc::{AllocError, Global};

/// The columns of the answer so far, the aggregate of each, and the AS names.
#[derive(Drop)]
pub struct Outputs<'a> {
    /// The columns, each with its name.
    pub columns: Vec<(TExpr, Text)>,
    /// For each column the aggregate over its expression, or `None`.
    pub aggs: Vec<Option<Agg>>,
    /// The names after AS, each with the number of its column, from 0.
    pub aliases: Vec<(&'a str, usize)>,
}

// Adds a column of a table of FROM.
fn push_column(
    alloc: Global,
    columns: &mut Vec<(TExpr, Text)>,
    op: Op,
    ty: SqlType,
    name: &str,
    place: u32,
) -> Result<(), Fault<Mistake>>
    ensures last { AnswersAs (λ _. map output_of columns.new.items) result (Ok (map output_of columns.old.items ++ (typed op ty place none, name.now) ∷ [])) }
{
    let name = Text::from_str(alloc, name)?;
    columns.push((leaf(alloc, op, ty, place), name))?;
    Ok(())
}

// Adds the columns of a table of FROM.
fn push_columns(
    alloc: Global,
    columns: &mut Vec<(TExpr, Text)>,
    from: u32,
    source: &Columns,
    place: u32,
) -> Result<(), Fault<Mistake>>
    ensures behind { AnswersAs (λ _. map output_of columns.new.items) result (Ok (map output_of columns.old.items ++ columns_of_table from 0 source.now place)) }
{
    for index in 0..source.len() {
        let (name, ty) = source.at(index);
        let column = number(index)?;
        push_column(alloc, columns, Op::Column { from, column }, ty, name, place)?;
    }
    Ok(())
}

// Adds all columns of all tables of FROM.
fn push_all(
    alloc: Global,
    columns: &mut Vec<(TExpr, Text)>,
    from: &[ScopeTable<'_>],
    place: u32,
) -> Result<(), Fault<Mistake>>
    ensures behind { AnswersAs (λ _. map output_of columns.new.items) result (Ok (map output_of columns.old.items ++ all_outputs 0 (sources_of from.now) place)) }
{
    for (index, source) in from.iter().enumerate() {
        push_columns(alloc, columns, number(index)?, source.columns, place)?;
    }
    Ok(())
}

// The name of an expression without AS.
#[tactic(auto, using(mob_expression::proofs::TreeFacts::tree_is))]
fn tree_name(alloc: Global, e: &Expr, position: usize) -> Result<Text, AllocError>
    ensures named { IfOk result (λ t. t ≡ tree_name (tree_of e.now) position) }
{
    match &e.node {
        Node::Column { column, .. } => column.text.copy(alloc),
        _ => numbered_name(alloc, position),
    }
}

// `c` and the position, counted from 1.
fn numbered_name(alloc: Global, position: usize) -> Result<Text, AllocError>
    ensures numbered { IfOk result (λ t. t ≡ numbered_name position) }
{
    let Some(position) = position.checked_add(1) else {
        return Err(AllocError);
    };
    Ok(Text::from_string(format!(in alloc; "c{position}")?))
}

// The name of a column of the answer.
fn output_name(
    alloc: Global,
    alias: &Option<Word>,
    e: &Expr,
    position: usize,
) -> Result<Text, AllocError>
    ensures named { IfOk result (λ t. t ≡ output_name alias.now (tree_of e.now) position) }
{
    match alias {
        Some(name) => name.text.copy(alloc),
        None => tree_name(alloc, e, position),
    }
}

// The name of the column of `count(*)`.
fn count_name(alloc: Global, alias: &Option<Word>, position: usize) -> Result<Text, AllocError>
    ensures named { IfOk result (λ t. t ≡ count_name alias.now position) }
{
    match alias {
        Some(name) => name.text.copy(alloc),
        None => numbered_name(alloc, position),
    }
}

// Records the name after AS, if there is one.
fn push_alias<'a>(
    aliases: &mut Vec<(&'a str, usize)>,
    alias: &'a Option<Word>,
    position: usize,
) -> Result<(), AllocError>
    ensures noted { OnOk result (map (λ a. (a.0.now, a.1)) aliases.new.items ≡ with_alias (map (λ a. (a.0.now, a.1)) aliases.old.items) alias.now position) }
{
    if let Some(name) = alias {
        aliases.push((name.text.as_str(), position))?;
    }
    Ok(())
}

// Applies an aggregate to its operand. Returns the operand's expression and the aggregate.
fn aggregated(
    name: &str,
    place: u32,
    args: Vec<TExpr>,
) -> Result<(TExpr, Option<Agg>), Fault<Mistake>>
    ensures judged { AnswersAs value_seen result (aggregated name.now place (map typed_of args.items)) }
{
    let Some(value) = lone_operand(args) else {
        return Err(Fault::Because(Mistake {
            kind: Kind::NoSuchOperator,
            place,
        }));
    };
    let Some((kind, ty)) = aggregate_row(name, type_of(&value)) else {
        return Err(Fault::Because(Mistake {
            kind: Kind::NoSuchOperator,
            place,
        }));
    };
    Ok((value, Some(Agg { kind, ty, place })))
}

// The only one of these expressions; `None` if there is not exactly one.
fn lone_operand(args: Vec<TExpr>) -> Option<TExpr>
    ensures alone { option_map typed_of result ≡ lone_operand (map typed_of args.items) }
{
    let mut args = args;
    let last = args.pop()?;
    if args.is_empty() { Some(last) } else { None }
}

// Types an aggregate and its operand.
fn aggregate_value(
    alloc: Global,
    scope: &Scope<'_>,
    consts: &mut Items<ConstText>,
    name: &str,
    place: u32,
    operands: &[Expr],
) -> Result<(TExpr, Option<Agg>), Fault<Mistake>>
    ensures typed { TypesTo value_seen result consts.new (aggregate_value (scope_of scope.now) name.now place (trees_of operands.now) consts.old) }
{
    let args = type_operands(alloc, scope, consts, operands)?;
    aggregated(name, place, args)
}

// Types an expression without an aggregate.
fn plain_value(
    alloc: Global,
    scope: &Scope<'_>,
    groups: &Option<Items<(u32, u32)>>,
    consts: &mut Items<ConstText>,
    e: &Expr,
) -> Result<(TExpr, Option<Agg>), Fault<Mistake>>
    ensures typed { TypesTo value_seen result consts.new (plain_value (scope_of scope.now) groups.now (tree_of e.now) consts.old) }
{
    let value = type_expr(alloc, scope, consts, e)?;
    if is_ungrouped(groups, &value) {
        return Err(Fault::Because(Mistake {
            kind: Kind::NoSuchOperator,
            place: tree_place(e),
        }));
    }
    Ok((value, None))
}

// Types the value of an item: an expression, or an aggregate over one.
#[tactic(auto, using(mob_expression::proofs::TreeFacts::tree_is))]
fn item_value(
    alloc: Global,
    scope: &Scope<'_>,
    groups: &Option<Items<(u32, u32)>>,
    consts: &mut Items<ConstText>,
    e: &Expr,
) -> Result<(TExpr, Option<Agg>), Fault<Mistake>>
    ensures typed { TypesTo value_seen result consts.new (item_value (scope_of scope.now) groups.now (tree_of e.now) consts.old) }
{
    match &e.node {
        Node::Call(name) => {
            if is_aggregate(name.as_str()) {
                aggregate_value(alloc, scope, consts, name.as_str(), e.place, &e.args)
            } else {
                plain_value(alloc, scope, groups, consts, e)
            }
        }
        _ => plain_value(alloc, scope, groups, consts, e),
    }
}

// Adds a column of the answer.
fn push_output<'a>(
    outputs: &mut Outputs<'a>,
    value: (TExpr, Option<Agg>),
    name: Text,
    alias: &'a Option<Word>,
) -> Result<(), Fault<Mistake>>
    ensures last { AnswersAs (λ _. outputs_seen outputs.new) result (Ok (with_output (outputs_seen outputs.old) (value_seen value) name alias.now)) }
{
    let position = outputs.columns.len();
    let (value, agg) = value;
    outputs.columns.push((value, name))?;
    outputs.aggs.push(agg)?;
    push_alias(&mut outputs.aliases, alias, position)?;
    Ok(())
}

// Types an expression of the select list and adds it.
fn push_one<'a>(
    alloc: Global,
    scope: &Scope<'_>,
    groups: &Option<Items<(u32, u32)>>,
    consts: &mut Items<ConstText>,
    outputs: &mut Outputs<'a>,
    value: &Expr,
    alias: &'a Option<Word>,
) -> Result<(), Fault<Mistake>>
    ensures typed { TypesTo (λ _. outputs_seen outputs.new) result consts.new (with_item (scope_of scope.now) groups.now (outputs_seen outputs.old) (one (tree_of value.now) alias.now) consts.old) }
{
    let name = output_name(alloc, alias, value, outputs.columns.len())?;
    let typed = item_value(alloc, scope, groups, consts, value)?;
    push_output(outputs, typed, name, alias)
}

// Adds `count(*)`.
fn push_count<'a>(
    alloc: Global,
    outputs: &mut Outputs<'a>,
    place: u32,
    alias: &'a Option<Word>,
) -> Result<(), Fault<Mistake>>
    ensures last { AnswersAs (λ _. outputs_seen outputs.new) result (Ok (with_output (outputs_seen outputs.old) (counting place) (count_name alias.now (length (outputs_seen outputs.old).columns)) alias.now)) }
{
    let name = count_name(alloc, alias, outputs.columns.len())?;
    let agg = Agg {
        kind: AggKind::CountAll,
        ty: SqlType::Int,
        place,
    };
    let value = leaf(alloc, Op::Null, SqlType::Text, place);
    push_output(outputs, (value, Some(agg)), name, alias)
}

// Adds `None` for each of these columns.
fn push_no_aggs(aggs: &mut Vec<Option<Agg>>, columns: &[(TExpr, Text)]) -> Result<(), AllocError>
    ensures behind { OnOk result (aggs.new.items ≡ aggs.old.items ++ map no_agg (map output_of columns.now)) }
{
    for column in columns {
        // Every column gets the same entry.
        let _value = &column.0;
        aggs.push(None)?;
    }
    Ok(())
}

// Appends columns to others.
fn push_more(columns: &mut Vec<(TExpr, Text)>, more: Vec<(TExpr, Text)>) -> Result<(), AllocError>
    ensures behind { OnOk result (map output_of columns.new.items ≡ map output_of columns.old.items ++ map output_of more.items) }
{
    let mut more = more;
    columns.append(&mut more)?;
    Ok(())
}

// All columns of all tables of FROM.
fn all_outputs(
    alloc: Global,
    from: &[ScopeTable<'_>],
    place: u32,
) -> Result<Vec<(TExpr, Text)>, Fault<Mistake>>
    ensures all { AnswersAs (λ v. map output_of v.items) result (Ok (all_outputs 0 (sources_of from.now) place)) }
{
    let mut columns = Vec::new(alloc);
    push_all(alloc, &mut columns, from, place)?;
    Ok(columns)
}

// Adds the columns that `*` gives.
fn push_every(
    alloc: Global,
    scope: &Scope<'_>,
    groups: &Option<Items<(u32, u32)>>,
    outputs: &mut Outputs<'_>,
    place: u32,
) -> Result<(), Fault<Mistake>>
    ensures behind { AnswersAs (λ _. outputs_seen outputs.new) result (with_every (scope_of scope.now) groups.now (outputs_seen outputs.old) place) }
{
    if scope.from.is_empty() {
        return Err(Fault::Because(Mistake {
            kind: Kind::UnknownName,
            place,
        }));
    }
    let more = all_outputs(alloc, scope.from, place)?;
    if any_ungrouped(groups, &more) {
        return Err(Fault::Because(Mistake {
            kind: Kind::NoSuchOperator,
            place,
        }));
    }
    push_no_aggs(&mut outputs.aggs, &more)?;
    push_more(&mut outputs.columns, more)?;
    Ok(())
}

// Types an entry of the select list and adds its columns.
fn push_item<'a>(
    alloc: Global,
    scope: &Scope<'_>,
    groups: &Option<Items<(u32, u32)>>,
    consts: &mut Items<ConstText>,
    outputs: &mut Outputs<'a>,
    item: &'a Item,
) -> Result<(), Fault<Mistake>>
    ensures typed { TypesTo (λ _. outputs_seen outputs.new) result consts.new (with_item (scope_of scope.now) groups.now (outputs_seen outputs.old) (item_of item.now) consts.old) }
{
    match item {
        Item::All { place } => push_every(alloc, scope, groups, outputs, *place),
        Item::One { value, alias } => {
            push_one(alloc, scope, groups, consts, outputs, value, alias)
        }
        Item::CountAll { place, alias } => push_count(alloc, outputs, *place, alias),
    }
}

/// Types the select list. Returns the columns of the answer, or the first mistake.
pub fn outputs_of<'a>(
    alloc: Global,
    scope: &Scope<'_>,
    groups: &Option<Items<(u32, u32)>>,
    consts: &mut Items<ConstText>,
    items: &'a [Item],
) -> Result<Outputs<'a>, Fault<Mistake>>
    ensures listed { TypesTo outputs_seen result consts.new (with_items (scope_of scope.now) groups.now no_outputs (map item_of items.now) consts.old) }
{
    let mut outputs = Outputs {
        columns: Vec::new(alloc),
        aggs: Vec::new(alloc),
        aliases: Vec::new(alloc),
    };
    for item in items {
        push_item(alloc, scope, groups, consts, &mut outputs, item)?;
    }
    Ok(outputs)
}
