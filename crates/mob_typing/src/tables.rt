//! Types CREATE TABLE and CREATE INDEX.
ghost use Rattle.std.specs.Prelude.{◌≡◌, ◌∷◌, ◌++◌, [], Ok, false, IfOk, OnOk};
ghost use Rattle.mob_operators.specs.Lookup.{same_type};
ghost use Rattle.mob_operators.specs.Table.{is_one_of};
ghost use Rattle.mob_ast.specs.declared.types.SqlType.TheVariants.{TPoint};
ghost use Rattle.mob_scope.specs.Answers.{AnswersAs};
ghost use Rattle.mob_scope.specs.Names.{has_entry};
ghost use Rattle.mob_typing.specs.Statements.{made_seen, with_column, with_columns, made_table, with_index, made_index};
ghost use Rattle.mob_typed.specs.Statements.{new_index};

use crate::names::Names;
use mob_ast::{Kind, SqlType, TypeWord, Word};
use mob_expression::words::type_named;
use mob_list::fault::Fault;
use mob_list::items::Items;
use mob_list::text::Text;
use mob_scope::column_list::Columns;
use mob_scope::fault::{Mistake, unless};
use mob_scope::scope::number;
use mob_typed::TypedStatement;
use std::alloc::{AllocError, Global};

// The greatest number of columns of a table, and of tables of a script.
const MOST: usize = 64;

// Adds a column.
fn with_column(
    alloc: Global,
    columns: &mut Columns,
    column: &(Word, TypeWord),
) -> Result<(), Fault<Mistake>>
    ensures last { AnswersAs (λ _. columns.new) result (with_column columns.old column.now) }
{
    let (name, word) = column;
    if columns.has(name.text.as_str()) {
        return Err(Fault::Because(Mistake {
            kind: Kind::Duplicate,
            place: name.place,
        }));
    }
    unless(columns.len() >= MOST, Kind::Limit, name.place)?;
    let Some(ty) = type_named(word) else {
        return Err(Fault::Because(Mistake {
            kind: Kind::UnknownName,
            place: word.name.place,
        }));
    };
    columns.add(alloc, name.text.as_str(), ty)?;
    Ok(())
}

// The columns of a new table.
fn with_columns(alloc: Global, list: &[(Word, TypeWord)]) -> Result<Columns, Fault<Mistake>>
    ensures in_order { AnswersAs (λ c. c) result (with_columns [] list.now) }
{
    let mut columns = Columns::new(alloc);
    for column in list {
        with_column(alloc, &mut columns, column)?;
    }
    Ok(columns)
}

// The columns as a list.
fn listed(alloc: Global, columns: &Columns) -> Result<Items<(Text, SqlType)>, AllocError>
    ensures all { IfOk result (λ v. v ≡ columns.now) }
{
    let mut list = Items::new(alloc);
    for index in 0..columns.len() {
        let (name, ty) = columns.at(index);
        list.push((Text::from_str(alloc, name)?, ty))?;
    }
    Ok(list)
}

// Adds a table with a new name. Returns its columns as a list.
fn added(
    alloc: Global,
    names: &mut Names,
    name: &str,
    columns: Columns,
) -> Result<Items<(Text, SqlType)>, AllocError>
    requires absent { has_entry names.old.tables name.now ≡ false }
    ensures list { IfOk result (λ v. v ≡ columns) }
    ensures last { OnOk result (names.new.tables ≡ names.old.tables ++ (name.now, columns) ∷ []) }
    ensures same_indexes { OnOk result (names.new.indexes ≡ names.old.indexes) }
{
    let list = listed(alloc, &columns)?;
    names.add_table(alloc, name, columns)?;
    Ok(list)
}

/// Types a CREATE TABLE, and adds its table to the names. Returns it, or its first mistake.
pub fn made_table(
    alloc: Global,
    names: &mut Names,
    name: &Word,
    columns: &Items<(Word, TypeWord)>,
) -> Result<TypedStatement, Fault<Mistake>>
    ensures made { AnswersAs (made_seen names.new) result (made_table names.old name.now columns.now) }
{
    if names.has(name.text.as_str()) {
        return Err(Fault::Because(Mistake {
            kind: Kind::Duplicate,
            place: name.place,
        }));
    }
    unless(names.len() >= MOST, Kind::Limit, name.place)?;
    let table = number(names.len())?;
    let text = name.text.copy(alloc)?;
    let columns = with_columns(alloc, columns.as_slice())?;
    let list = added(alloc, names, name.text.as_str(), columns)?;
    Ok(TypedStatement::CreateTable {
        table,
        name: text,
        columns: list,
    })
}

fn is_moving_point(ty: SqlType) -> bool
    ensures moving_point { result ≡ same_type ty TPoint }
{
    matches!(ty, SqlType::TPoint)
}

// Adds an index with a new name on a column of a table. Returns the statement with the numbers of
// both.
fn added_index(
    alloc: Global,
    names: &mut Names,
    name: &Word,
    table: usize,
    column: usize,
) -> Result<TypedStatement, Fault<Mistake>>
    requires absent { is_one_of names.old.indexes name.now.text ≡ false }
    ensures added { AnswersAs (made_seen names.new) result (Ok (record { statement = new_index table column name.now.text; names = with_index names.old name.now.text })) }
{
    let table = number(table)?;
    let column = number(column)?;
    let text = name.text.copy(alloc)?;
    names.add_index(alloc, name.text.as_str())?;
    Ok(TypedStatement::CreateIndex {
        table,
        column,
        name: text,
    })
}

/// Types a CREATE INDEX, and adds its index to the names. Returns it, or its first mistake.
pub fn made_index(
    alloc: Global,
    names: &mut Names,
    name: &Word,
    table: &Word,
    column: &Word,
) -> Result<TypedStatement, Fault<Mistake>>
    ensures made { AnswersAs (made_seen names.new) result (made_index names.old name.now table.now column.now) }
{
    let Some((table_index, columns)) = names.find(table.text.as_str()) else {
        return Err(Fault::Because(Mistake {
            kind: Kind::UnknownName,
            place: table.place,
        }));
    };
    if names.has_index(name.text.as_str()) {
        return Err(Fault::Because(Mistake {
            kind: Kind::Duplicate,
            place: name.place,
        }));
    }
    let Some((column_index, ty)) = columns.find(column.text.as_str()) else {
        return Err(Fault::Because(Mistake {
            kind: Kind::UnknownName,
            place: column.place,
        }));
    };
    unless(!is_moving_point(ty), Kind::NoSuchOperator, column.place)?;
    added_index(alloc, names, name, table_index, column_index)
}
