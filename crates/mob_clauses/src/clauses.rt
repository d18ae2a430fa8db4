//! Types all clauses of a SELECT or a DELETE together.
ghost use Rattle.std.specs.Prelude.{◌≡◌, option_map};
ghost use Rattle.mob_ast.specs.declared.types.Word.{Word};
ghost use Rattle.mob_ast.specs.Trees.{tree_of, select_of};
ghost use Rattle.mob_expression.specs.Steps.{TypesTo};
ghost use Rattle.mob_scope.specs.Scopes.{scope_of};
ghost use Rattle.mob_typed.specs.Selects.{select_seen};
ghost use Rattle.mob_clauses.specs.Outputs.{outputs_seen};
ghost use Rattle.mob_clauses.specs.Clauses.{typed_conditions, conditions_seen, typed_arrangement, arrangement_seen, rows_to_go, select_made, typed_clauses};

use crate::conditions::{condition, typed_joins};
use crate::groups::{grouping, is_grouped};
use crate::keys::{key_items, limit_of, typed_groups, typed_keys};
use crate::outputs::{Outputs, outputs_of};
use crate::tables::scope_tables;
use mob_ast::{Expr, SelectTree};
use mob_list::fault::Fault;
use mob_list::items::Items;
use mob_list::text::Text;
use mob_scope::fault::Mistake;
use mob_scope::scope::Scope;
use mob_typed::{ConstText, TExpr, TypedSelect};
use std::alloc::Global;

/// The tables of FROM of a SELECT.
#[derive(Drop)]
pub struct Tables {
    /// The numbers of the tables.
    pub numbers: Items<u32>,
    /// The name of each table in this SELECT: the alias, if it has one.
    pub names: Items<Text>,
}

/// The conditions of a SELECT.
#[derive(Drop)]
pub struct Conditions {
    /// The ON of each table of FROM; `None` for a table that is not left-joined.
    pub joins: Items<Option<TExpr>>,
    /// The condition of WHERE, if there is one.
    pub cond: Option<TExpr>,
}

/// GROUP BY, ORDER BY and LIMIT of a SELECT.
#[derive(Drop)]
pub struct Arrangement {
    /// The columns of GROUP BY; empty without it.
    pub groups: Items<TExpr>,
    /// The keys of ORDER BY; true means DESC.
    pub keys: Items<(TExpr, bool)>,
    /// For each key that is an AS name, the number of that column of the answer; else `None`.
    pub key_items: Items<Option<u32>>,
    /// The number of LIMIT, if there is one.
    pub limit: Option<u64>,
}

// The ON of each table, and WHERE.
fn typed_conditions(
    alloc: Global,
    scope: &Scope<'_>,
    consts: &mut Items<ConstText>,
    select: &SelectTree,
) -> Result<Conditions, Fault<Mistake>>
    ensures typed { TypesTo conditions_seen result consts.new (typed_conditions (scope_of scope.now) (select_of select.now) consts.old) }
{
    let joins = typed_joins(alloc, scope, consts, select.from.as_slice())?;
    let cond = condition(alloc, scope, consts, &select.cond)?;
    Ok(Conditions { joins, cond })
}

// GROUP BY, ORDER BY and LIMIT.
fn typed_arrangement(
    alloc: Global,
    scope: &Scope<'_>,
    grouping: &Option<Items<(u32, u32)>>,
    consts: &mut Items<ConstText>,
    outputs: &Outputs<'_>,
    select: &SelectTree,
) -> Result<Arrangement, Fault<Mistake>>
    ensures typed { TypesTo arrangement_seen result consts.new (typed_arrangement (scope_of scope.now) grouping.now (outputs_seen outputs.now) (select_of select.now) consts.old) }
{
    let groups = typed_groups(alloc, scope, select.groups.as_slice())?;
    let keys = typed_keys(
        alloc,
        scope,
        grouping,
        consts,
        outputs,
        select.keys.as_slice(),
    )?;
    let limit = limit_of(&select.limit)?;
    let key_items = key_items(alloc, outputs, select.keys.as_slice())?;
    Ok(Arrangement {
        groups,
        keys,
        key_items,
        limit,
    })
}

// Makes the typed SELECT of its clauses.
fn select_made(
    select: &SelectTree,
    grouped: bool,
    tables: Tables,
    outputs: Outputs<'_>,
    conditions: Conditions,
    arrangement: Arrangement,
) -> TypedSelect
    ensures whole { select_seen result ≡ select_made tables (select_of select.now) grouped (outputs_seen outputs.entry) (conditions_seen conditions) (arrangement_seen arrangement) }
{
    let Tables { numbers, names } = tables;
    let Outputs {
        columns,
        aggs,
        aliases: _,
    } = outputs;
    let Conditions { joins, cond } = conditions;
    let Arrangement {
        groups,
        keys,
        key_items,
        limit,
    } = arrangement;
    TypedSelect {
        distinct: select.distinct,
        items: Items::from_vec(columns),
        from: numbers,
        names,
        joins,
        cond,
        grouped,
        groups,
        aggs: Items::from_vec(aggs),
        keys,
        key_items,
        limit,
    }
}

/// Types a SELECT over its tables of FROM. Clauses are typed in written order: the select list, ON,
/// WHERE, GROUP BY, ORDER BY and LIMIT. Returns the typed SELECT, or the first mistake. `NoMemory`
/// if an allocation fails.
pub fn typed_clauses(
    alloc: Global,
    scope: &Scope<'_>,
    consts: &mut Items<ConstText>,
    select: &SelectTree,
) -> Result<TypedSelect, Fault<Mistake>>
    ensures typed { TypesTo select_seen result consts.new (typed_clauses (scope_of scope.now) (select_of select.now) consts.old) }
{
    let grouped = is_grouped(select);
    let grouping = grouping(alloc, grouped, scope, select.groups.as_slice())?;
    let outputs = outputs_of(alloc, scope, &grouping, consts, select.items.as_slice())?;
    let conditions = typed_conditions(alloc, scope, consts, select)?;
    let arrangement = typed_arrangement(alloc, scope, &grouping, consts, &outputs, select)?;
    let tables = scope_tables(alloc, scope.from)?;
    Ok(select_made(select, grouped, tables, outputs, conditions, arrangement))
}

/// Types a DELETE over its table, as a SELECT with its condition and without columns of an answer.
/// Returns it, or the first mistake of the condition.
pub fn clauses_to_go(
    alloc: Global,
    scope: &Scope<'_>,
    consts: &mut Items<ConstText>,
    cond: &Option<Expr>,
) -> Result<TypedSelect, Fault<Mistake>>
    ensures typed { (table : Word) → TypesTo select_seen result consts.new (typed_clauses (scope_of scope.now) (rows_to_go table (option_map tree_of cond.now)) consts.old) }
{
    let mut joins = Items::new(alloc);
    joins.push(None)?;
    let Tables { numbers, names } = scope_tables(alloc, scope.from)?;
    let cond = condition(alloc, scope, consts, cond)?;
    Ok(TypedSelect {
        distinct: false,
        items: Items::new(alloc),
        from: numbers,
        names,
        joins,
        cond,
        grouped: false,
        groups: Items::new(alloc),
        aggs: Items::new(alloc),
        keys: Items::new(alloc),
        key_items: Items::new(alloc),
        limit: None,
    })
}
