//! The first rows of a table, put into it as one list.
ghost use Rattle.std.specs.Prelude.{◌≡◌, ◌<◌, IfOk, [], false, length};
ghost use Rattle.std.specs.List.{AllByRecursion};
ghost use Rattle.mob_catalog.specs.Catalogue.{live_of, rows_put, with_changed};
ghost use Rattle.mob_catalog.specs.Kept.{numbers_from, with_last_rows, with_live_rows};

use crate::catalog::TableHead;
use mob_list::items::Items;
use mob_value::{Rows, Table, Value};
use std::alloc::{AllocError, Global};
use std::mem;

/// Whether an index is on the table of this number.
pub fn has_index(indexed: &[(u32, u32)], table: u32) -> bool
    ensures none { result ≡ false → AllByRecursion (λ on. on.0 ≡ table → ⊥) indexed.now }
{
    for on in indexed {
        if on.0 == table {
            return true;
        }
    }
    false
}

/// Whether the table of this number has had rows, or does not exist.
pub fn has_rows(tables: &[Table], table: u32) -> bool
    ensures there { result ≡ false → table < length tables.now }
    ensures none { result ≡ false → rows_put table tables.now ≡ 0 }
{
    match tables.get(table as usize) {
        Some(found) => !found.rows.is_empty(),
        None => true,
    }
}

/// Whether the table of this number has live rows.
pub fn has_live(heads: &[TableHead], table: u32) -> bool
    ensures none { result ≡ false → live_of heads.now table ≡ [] }
{
    match heads.get(table as usize) {
        Some(head) => !head.live.is_empty(),
        None => false,
    }
}

/// The numbers from 0 below `count`.
pub fn first_numbers(alloc: Global, count: usize) -> Result<Items<u32>, AllocError>
    ensures numbers { IfOk result (λ numbers. numbers ≡ numbers_from 0 count) }
{
    let Ok(end) = u32::try_from(count) else {
        return Err(AllocError);
    };
    let mut numbers = Vec::with_capacity(alloc, count)?;
    for number in 0..end {
        numbers.push(number)?;
    }
    Ok(Items::from_vec(numbers))
}

/// Puts rows into a table that has none. It allocates nothing.
pub fn set_rows(alloc: Global, tables: &mut Items<Table>, table: u32, rows: Rows<Value>)
    requires there { table < length tables.old }
    requires none { rows_put table tables.old ≡ 0 }
    ensures put { tables.new ≡ with_changed table (with_last_rows rows) tables.old }
{
    let nothing = Items::new(alloc);
    let mut all = mem::replace(tables, nothing).into_vec();
    all[table as usize].rows = rows;
    *tables = Items::from_vec(all);
}

/// Marks rows as live in a table that has no live rows. It allocates nothing.
pub fn set_live(heads: &mut Vec<TableHead>, table: u32, live: Items<u32>)
    requires there { table < length heads.old.items }
    requires none { live_of heads.old.items table ≡ [] }
    ensures put { heads.new.items ≡ with_changed table (with_live_rows live) heads.old.items }
{
    heads[table as usize].live = live;
}
