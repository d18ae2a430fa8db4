//! Finds the column that a name means.
ghost use Rattle.std.specs.Prelude.{◌≡◌, Ok, option_map};
ghost use Rattle.mob_scope.specs.Answers.{AnswersAs};
ghost use Rattle.mob_scope.specs.Names.{entry_from};
ghost use Rattle.mob_scope.specs.Scopes.{source_of, sources_of, scope_of};
ghost use Rattle.mob_scope.specs.Columns.{the_one, matches, column_among, in_from, column_named};

use crate::fault::Mistake;
use crate::scope::{Found, Scope, ScopeTable, number};
use mob_ast::{Kind, SqlType, Word};
use mob_list::fault::Fault;

// A column by the number of its table and its own number, both from 0.
fn found_at(from: usize, column: usize, ty: SqlType) -> Result<Found, Fault<Mistake>>
    ensures numbered { AnswersAs (λ f. f) result (Ok (record { from = from; column = column; ty = ty })) }
{
    let from = number(from)?;
    let column = number(column)?;
    Ok(Found { from, column, ty })
}

// The only column of this name in all tables of FROM.
fn bare_column(from: &[ScopeTable<'_>], name: &Word) -> Result<Found, Fault<Mistake>>
    ensures only_one { AnswersAs (λ f. f) result (the_one name.now.place (matches 0 (sources_of from.now) name.now.text)) }
{
    let mut one: Option<Found> = None;
    for (index, source) in from.iter().enumerate() {
        if let Some((column, ty)) = source.columns.find(name.text.as_str()) {
            if one.is_some() {
                return Err(Fault::Because(Mistake {
                    kind: Kind::Duplicate,
                    place: name.place,
                }));
            }
            one = Some(found_at(index, column, ty)?);
        }
    }
    one.ok_or(Fault::Because(Mistake {
        kind: Kind::UnknownName,
        place: name.place,
    }))
}

/// The number, from 0, and the entry of the first table of FROM with this name or alias; `None` if
/// there is none.
pub fn source_named<'a>(
    from: &'a [ScopeTable<'a>],
    name: &str,
) -> Option<(usize, &'a ScopeTable<'a>)>
    ensures first { option_map (λ r. (r.0, (source_of r.1.now).1)) result ≡ entry_from 0 (sources_of from.now) name.now }
{
    for (index, source) in from.iter().enumerate() {
        if name == source.name {
            return Some((index, source));
        }
    }
    None
}

// The column that a name means among these tables, which are counted from 0.
fn column_among(
    from: &[ScopeTable<'_>],
    table: &Option<Word>,
    column: &Word,
) -> Result<Found, Fault<Mistake>>
    ensures named { AnswersAs (λ f. f) result (column_among (sources_of from.now) table.now column.now) }
{
    let Some(table) = table else {
        return bare_column(from, column);
    };
    let Some((from, source)) = source_named(from, table.text.as_str()) else {
        return Err(Fault::Because(Mistake {
            kind: Kind::UnknownName,
            place: table.place,
        }));
    };
    let Some((index, ty)) = source.columns.find(column.text.as_str()) else {
        return Err(Fault::Because(Mistake {
            kind: Kind::UnknownName,
            place: column.place,
        }));
    };
    found_at(from, index, ty)
}

// The column, with its table counted over all of FROM. A sum beyond 32 bits is reported as out of
// memory.
fn in_from(first: u32, found: Found) -> Result<Found, Fault<Mistake>>
    ensures counted { AnswersAs (λ f. f) result (Ok (in_from first found)) }
{
    let Some(from) = first.checked_add(found.from) else {
        return Err(Fault::NoMemory);
    };
    Ok(Found {
        from,
        column: found.column,
        ty: found.ty,
    })
}

/// The column that a name means, with or without its table before a point.
///
/// `UnknownName` at the place of the table or of the column if there is none, and `Duplicate` if a
/// bare name is that of two columns.
pub fn column_named(
    scope: &Scope<'_>,
    table: &Option<Word>,
    column: &Word,
) -> Result<Found, Fault<Mistake>>
    ensures named { AnswersAs (λ f. f) result (column_named (scope_of scope.now) table.now column.now) }
{
    in_from(scope.first, column_among(scope.from, table, column)?)
}
