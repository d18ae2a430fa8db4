//! The columns of a table, found by name or by number.
ghost use Rattle.std.specs.Prelude.{◌≡◌, ◌<◌, Some, ◌∷◌, ◌++◌, [], false, length, OnErr, OnOk, slice_get};
ghost use Rattle.mob_scope.specs.Names.{column_of, has_entry};

use indexmap::IndexMap;
use mob_ast::SqlType;
use std::alloc::{AllocError, Global};
use std::marker::Model;

/// The columns of a table in order, each with its type.
#[derive(Drop)]
pub struct Columns {
    types: IndexMap<String, SqlType>,
}

impl Model for Columns {
    ghost use Rattle.std.specs.Prelude.{List, ℕ, map, string_bytes};
    ghost use Rattle.mob_ast.specs.declared.types.SqlType.{SqlType};

    ghost Value = { List (List ℕ × SqlType) };

    ghost view = { λ c. map (λ e. (string_bytes e.0, e.1)) c.types.entries };
}

impl Columns {
    /// An empty list. It takes no memory.
    pub fn new(alloc: Global) -> Self
        ensures empty { result ≡ [] }
    {
        Columns {
            types: IndexMap::new(alloc),
        }
    }

    /// The number of columns.
    pub fn len(&self) -> usize
        ensures count { result ≡ length self.now }
    {
        self.types.len()
    }

    /// The number, from 0, and the type of the column with this name; `None` if there is none.
    pub fn find(&self, name: &str) -> Option<(usize, SqlType)>
        ensures first { result ≡ column_of self.now name.now }
    {
        let (index, _, ty) = self.types.get_full(name)?;
        Some((index, *ty))
    }

    /// Whether a column has this name.
    pub fn has(&self, name: &str) -> bool
        ensures known { result ≡ has_entry self.now name.now }
    {
        self.find(name).is_some()
    }

    /// The name and the type of the column at this number, from 0.
    pub fn at(&self, index: usize) -> (&str, SqlType)
        requires there { index < length self.now }
        ensures stored { slice_get self.now index ≡ Some (result.0.now, result.1) }
    {
        let Some((name, ty)) = self.types.get_index(index) else {
            unreachable!()
        };
        (name.as_str(), *ty)
    }

    /// Appends a column with a new name. An error means that an allocation failed; the columns are
    /// then unchanged.
    pub fn add(&mut self, alloc: Global, name: &str, ty: SqlType) -> Result<(), AllocError>
        requires absent { has_entry self.old name.now ≡ false }
        ensures last { OnOk result (self.new ≡ self.old ++ (name.now, ty) ∷ []) }
        ensures unchanged { OnErr result (self.new ≡ self.old) }
    {
        self.types.insert(String::from_str(alloc, name)?, ty)?;
        Ok(())
    }
}
