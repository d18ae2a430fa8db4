//! Runs a DELETE.
ghost use Rattle.std.specs.Prelude.{◌≡◌, ◌≤◌, Ok, Err, IfOk, IfErr, OnErr, OnOk, get_or, length};
ghost use Rattle.mob_typed.specs.Selects.{select_seen};
ghost use Rattle.mob_list.specs.Faults.{OnCause};
ghost use Rattle.mob_join.specs.Deleted.{first_rows as rows_of};
ghost use Rattle.mob_join.specs.Query.{IsKept};
ghost use Rattle.mob_join.specs.TypedFor.{IsTypedFor};
ghost use Rattle.mob_shell.specs.Deletes.{IsDeleted};

use crate::statements::answers::kept_tuples;
use mob_catalog::Catalog;
use mob_eval::QueryFault;
use mob_list::items::Items;
use mob_meaning::Terms;
use mob_outside::Gate;
use mob_tuples::Tuple;
use mob_typed::TypedSelect;
use std::alloc::{AllocError, Global};
use std::thread::Threads;

// The row of the first table of a tuple.
fn first_row(tuple: &Tuple) -> u32
    ensures row { result ≡ get_or tuple.now 0 0 }
{
    match tuple.as_slice().first() {
        Some(row) => *row,
        None => 0,
    }
}

// The row of the first table of each of these tuples.
fn first_rows(alloc: Global, kept: &[Tuple]) -> Result<Vec<u32>, AllocError>
    ensures rows { IfOk result (λ rows. rows.items ≡ rows_of kept.now) }
{
    let mut rows = Vec::new(alloc);
    for tuple in kept {
        rows.push(first_row(tuple))?;
    }
    Ok(rows)
}

// Deletes the kept rows. All their numbers are collected before the first row is deleted.
fn take_away(
    alloc: Global,
    select: &TypedSelect,
    catalog: &mut Catalog,
    terms: &Terms,
    kept: Items<Tuple>,
) -> Result<(), AllocError>
    requires typed { IsTypedFor catalog.old (select_seen select.now) }
    requires one { length select.now.from ≡ 1 }
    requires kept { IsKept (select_seen select.now) catalog.old terms.now (Ok kept) }
    ensures deleted { OnOk result (IsDeleted (select_seen select.now) catalog.old terms.now catalog.new) }
    ensures unchanged { OnErr result (catalog.new ≡ catalog.old) }
{
    let rows = first_rows(alloc, kept.as_slice())?;
    let table = select.from.as_slice()[0];
    catalog.delete_rows(table, rows.as_slice());
    Ok(())
}

/// Deletes the rows that a query of one table keeps. They are found first, by the plan of the query
/// and divided among workers as for a SELECT. If the query has a fault or an allocation fails,
/// nothing is changed.
pub fn delete_kept<R: Threads + Sync, G: Gate>(
    rt: &R,
    alloc: Global,
    select: &TypedSelect,
    catalog: &mut Catalog,
    terms: &Terms,
    workers: usize,
    gate: &G,
) -> Result<(), QueryFault>
    requires typed { IsTypedFor catalog.old (select_seen select.now) }
    requires one { length select.now.from ≡ 1 }
    requires some { 1 ≤ workers }
    requires few { workers ≤ 64 }
    ensures deleted { OnOk result (IsDeleted (select_seen select.now) catalog.old terms.now catalog.new) }
    ensures fault { IfErr result (OnCause (λ f. IsKept (select_seen select.now) catalog.old terms.now (Err f))) }
    ensures unchanged { OnErr result (catalog.new ≡ catalog.old) }
{
    match kept_tuples(rt, alloc, select, catalog, terms, workers, gate) {
        Ok(kept) => Ok(take_away(alloc, select, catalog, terms, kept)?),
        Err(fault) => Err(fault),
    }
}
