//! The tables and indexes that a script has made so far, found by name or by number.
ghost use Rattle.std.specs.Prelude.{◌≡◌, ◌∷◌, ◌++◌, [], false, length, OnErr, OnOk, option_map};
ghost use Rattle.mob_operators.specs.Table.{is_one_of};
ghost use Rattle.mob_scope.specs.Names.{has_entry};
ghost use Rattle.mob_typing.specs.Names.{table_of};

use indexmap::{IndexMap, IndexSet};
use mob_scope::column_list::Columns;
use std::alloc::{AllocError, Global};
use std::marker::Model;

/// The tables and indexes that a script has made so far.
#[derive(Drop)]
pub struct Names {
    tables: IndexMap<String, Columns>,
    indexes: IndexSet<String>,
}

impl Model for Names {
    ghost use Rattle.std.specs.Prelude.{map, string_bytes};
    ghost use Rattle.mob_typing.specs.Names.{NameLists};

    ghost Value = { NameLists };

    ghost view = { λ n. record { tables = map (λ e. (string_bytes e.0, e.1)) n.tables.entries; indexes = map string_bytes n.indexes.keys } };
}

impl Names {
    /// No tables and no indexes. It takes no memory.
    pub fn new(alloc: Global) -> Self
        ensures no_tables { result.tables ≡ [] }
        ensures no_indexes { result.indexes ≡ [] }
    {
        Names {
            tables: IndexMap::new(alloc),
            indexes: IndexSet::new(alloc),
        }
    }

    /// The number of tables.
    pub fn len(&self) -> usize
        ensures count { result ≡ length self.now.tables }
    {
        self.tables.len()
    }

    /// The number, from 0, and the columns of the table with this name; `None` if there is none.
    pub fn find(&self, name: &str) -> Option<(usize, &Columns)>
        ensures first { option_map (λ t. (t.0, t.1.now)) result ≡ table_of self.now.tables name.now }
    {
        let (index, _, columns) = self.tables.get_full(name)?;
        Some((index, columns))
    }

    /// Whether a table has this name.
    pub fn has(&self, name: &str) -> bool
        ensures known { result ≡ has_entry self.now.tables name.now }
    {
        self.find(name).is_some()
    }

    /// Whether an index has this name.
    pub fn has_index(&self, name: &str) -> bool
        ensures known { result ≡ is_one_of self.now.indexes name.now }
    {
        self.indexes.contains(name)
    }

    /// Appends a table with a new name. An error means that an allocation failed; the names are
    /// then unchanged.
    pub fn add_table(
        &mut self,
        alloc: Global,
        name: &str,
        columns: Columns,
    ) -> Result<(), AllocError>
        requires absent { has_entry self.old.tables name.now ≡ false }
        ensures last { OnOk result (self.new.tables ≡ self.old.tables ++ (name.now, columns) ∷ []) }
        ensures same_indexes { OnOk result (self.new.indexes ≡ self.old.indexes) }
        ensures unchanged { OnErr result (self.new ≡ self.old) }
    {
        self.tables.insert(String::from_str(alloc, name)?, columns)?;
        Ok(())
    }

    /// Appends an index with a new name. An error means that an allocation failed; the names are
    /// then unchanged.
    pub fn add_index(&mut self, alloc: Global, name: &str) -> Result<(), AllocError>
        requires absent { is_one_of self.old.indexes name.now ≡ false }
        ensures last { OnOk result (self.new.indexes ≡ self.old.indexes ++ name.now ∷ []) }
        ensures same_tables { OnOk result (self.new.tables ≡ self.old.tables) }
        ensures unchanged { OnErr result (self.new ≡ self.old) }
    {
        self.indexes.insert(String::from_str(alloc, name)?)?;
        Ok(())
    }
}
