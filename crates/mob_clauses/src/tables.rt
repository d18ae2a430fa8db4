//! The tables of FROM in a typed SELECT.
ghost use Rattle.std.specs.Prelude.{◌≡◌, IfOk};
ghost use Rattle.mob_scope.specs.Scopes.{sources_of};
ghost use Rattle.mob_clauses.specs.Clauses.{named_tables};

use crate::clauses::Tables;
use mob_list::items::Items;
use mob_list::text::Text;
use mob_scope::scope::ScopeTable;
use std::alloc::{AllocError, Global};

/// The tables of FROM with their names or aliases. An error means that an allocation failed.
pub fn scope_tables(alloc: Global, sources: &[ScopeTable<'_>]) -> Result<Tables, AllocError>
    ensures tables { IfOk result (λ t. t ≡ named_tables (sources_of sources.now)) }
{
    let mut numbers = Items::new(alloc);
    let mut names = Items::new(alloc);
    for source in sources {
        numbers.push(source.table)?;
        names.push(Text::from_str(alloc, source.name)?)?;
    }
    Ok(Tables { numbers, names })
}
