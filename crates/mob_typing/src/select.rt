//! Types SELECT, EXPLAIN and DELETE.
ghost use Rattle.std.specs.Prelude.{option_map};
ghost use Rattle.mob_ast.specs.Trees.{tree_of, select_of};
ghost use Rattle.mob_expression.specs.Steps.{TypesTo};
ghost use Rattle.mob_typed.specs.Selects.{select_seen};
ghost use Rattle.mob_typed.specs.Statements.{deletion, query, plan_of};
ghost use Rattle.mob_clauses.specs.Clauses.{rows_to_go};
ghost use Rattle.mob_typing.specs.Selects.{typed_select};
ghost use Rattle.mob_typing.specs.Statements.{asked, made_seen};

use crate::from::{from_table, from_tables};
use crate::names::Names;
use mob_ast::{Expr, SelectTree, Word};
use mob_clauses::{clauses_to_go, typed_clauses};
use mob_list::fault::Fault;
use mob_list::items::Items;
use mob_scope::fault::Mistake;
use mob_scope::scope::Scope;
use mob_typed::{ConstText, TypedSelect, TypedStatement};
use std::alloc::Global;

// Types the query of the statement with this number. Returns it, or its first mistake.
fn typed_select(
    alloc: Global,
    names: &Names,
    statement: u32,
    consts: &mut Items<ConstText>,
    select: &SelectTree,
) -> Result<TypedSelect, Fault<Mistake>>
    ensures typed { TypesTo select_seen result consts.new (typed_select names.now.tables statement (select_of select.now) consts.old) }
{
    let from = from_tables(alloc, names, select.from.as_slice())?;
    let scope = Scope {
        from: &from,
        first: 0,
        statement,
    };
    typed_clauses(alloc, &scope, consts, select)
}

// Types the DELETE of the statement with this number, as a query of one table with its condition
// and without items. Returns it, or its first mistake.
fn typed_delete(
    alloc: Global,
    names: &Names,
    statement: u32,
    consts: &mut Items<ConstText>,
    table: &Word,
    cond: &Option<Expr>,
) -> Result<TypedSelect, Fault<Mistake>>
    ensures typed { TypesTo select_seen result consts.new (typed_select names.now.tables statement (rows_to_go table.now (option_map tree_of cond.now)) consts.old) }
{
    let alias = None;
    let from = [from_table(names, &[], table, &alias)?];
    let scope = Scope {
        from: &from,
        first: 0,
        statement,
    };
    clauses_to_go(alloc, &scope, consts, cond)
}

/// Types the SELECT of the statement with this number. Returns it, or its first mistake.
pub fn selected(
    alloc: Global,
    statement: u32,
    names: &Names,
    consts: &mut Items<ConstText>,
    select: &SelectTree,
) -> Result<TypedStatement, Fault<Mistake>>
    ensures made { TypesTo (made_seen names.now) result consts.new (asked query names.now (typed_select names.now.tables statement (select_of select.now) consts.old)) }
{
    let select = typed_select(alloc, names, statement, consts, select)?;
    Ok(TypedStatement::Select(select))
}

/// Types the EXPLAIN of the statement with this number. Returns it, or its first mistake.
pub fn explained(
    alloc: Global,
    statement: u32,
    names: &Names,
    consts: &mut Items<ConstText>,
    select: &SelectTree,
) -> Result<TypedStatement, Fault<Mistake>>
    ensures made { TypesTo (made_seen names.now) result consts.new (asked plan_of names.now (typed_select names.now.tables statement (select_of select.now) consts.old)) }
{
    let select = typed_select(alloc, names, statement, consts, select)?;
    Ok(TypedStatement::Explain(select))
}

/// Types the DELETE of the statement with this number. Returns it, or its first mistake.
pub fn deleted(
    alloc: Global,
    statement: u32,
    names: &Names,
    consts: &mut Items<ConstText>,
    table: &Word,
    cond: &Option<Expr>,
) -> Result<TypedStatement, Fault<Mistake>>
    ensures made { TypesTo (made_seen names.now) result consts.new (asked deletion names.now (typed_select names.now.tables statement (rows_to_go table.now (option_map tree_of cond.now)) consts.old)) }
{
    let delete = typed_delete(alloc, names, statement, consts, table, cond)?;
    Ok(TypedStatement::Delete(delete))
}
