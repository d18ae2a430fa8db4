//! Types FROM: its tables, each under its name or alias.
ghost use Rattle.std.specs.Prelude.{◌≡◌, ◌++◌, ◌∷◌, [], map};
ghost use Rattle.mob_ast.specs.Trees.{from_of};
ghost use Rattle.mob_scope.specs.Answers.{AnswersAs};
ghost use Rattle.mob_scope.specs.Scopes.{source_of, sources_of};
ghost use Rattle.mob_scope.specs.Names.{has_entry};
ghost use Rattle.mob_typing.specs.Selects.{from_name, from_table, from_tables};

use crate::names::Names;
use mob_ast::{FromTable, Kind, Word};
use mob_list::fault::Fault;
use mob_scope::columns::source_named;
use mob_scope::fault::{Mistake, unless};
use mob_scope::scope::{ScopeTable, number};
use std::alloc::Global;

// The greatest number of tables in FROM.
const TABLES: usize = 4;

// Whether a table of FROM already has this name or alias.
fn has_source(sources: &[ScopeTable<'_>], name: &Word) -> bool
    ensures taken { result ≡ has_entry (sources_of sources.now) name.now.text }
{
    source_named(sources, name.text.as_str()).is_some()
}

// The name or alias of a table that is added after these tables of FROM.
fn from_name<'a>(
    sources: &[ScopeTable<'_>],
    table: &'a Word,
    alias: &'a Option<Word>,
) -> Result<&'a str, Fault<Mistake>>
    ensures named { AnswersAs (λ n. n.now) result (from_name (sources_of sources.now) table.now alias.now) }
{
    let full = sources.len() >= TABLES;
    match alias {
        None => {
            unless(has_source(sources, table), Kind::Duplicate, table.place)?;
            unless(full, Kind::Limit, table.place)?;
            Ok(table.text.as_str())
        }
        Some(name) => {
            unless(full, Kind::Limit, table.place)?;
            unless(has_source(sources, name), Kind::Duplicate, name.place)?;
            Ok(name.text.as_str())
        }
    }
}

/// The table of FROM that is added after these. `UnknownName` if the script has made no such table,
/// `Duplicate` if its name or alias is taken, `Limit` if it would be the fifth table, and
/// `NoMemory` if an allocation fails.
pub fn from_table<'a>(
    names: &'a Names,
    sources: &[ScopeTable<'_>],
    table: &'a Word,
    alias: &'a Option<Word>,
) -> Result<ScopeTable<'a>, Fault<Mistake>>
    ensures behind { AnswersAs (λ s. sources_of sources.now ++ source_of s ∷ []) result (from_table names.now.tables (sources_of sources.now) table.now alias.now) }
{
    let Some((index, columns)) = names.find(table.text.as_str()) else {
        return Err(Fault::Because(Mistake {
            kind: Kind::UnknownName,
            place: table.place,
        }));
    };
    let name = from_name(sources, table, alias)?;
    let table = number(index)?;
    Ok(ScopeTable {
        name,
        table,
        columns,
    })
}

/// The tables of FROM in order, or the first mistake.
pub fn from_tables<'a>(
    alloc: Global,
    names: &'a Names,
    from: &'a [FromTable],
) -> Result<Vec<ScopeTable<'a>>, Fault<Mistake>>
    ensures named { AnswersAs (λ v. sources_of v.items) result (from_tables names.now.tables [] (map from_of from.now)) }
{
    let mut sources = Vec::new(alloc);
    for entry in from {
        let source = from_table(names, &sources, &entry.table, &entry.alias)?;
        sources.push(source)?;
    }
    Ok(sources)
}
