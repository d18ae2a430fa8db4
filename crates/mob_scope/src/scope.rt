//! What an expression can name: tables of FROM and their columns.
ghost use Rattle.std.specs.Prelude.{Ok};
ghost use Rattle.mob_scope.specs.Answers.{AnswersAs};

use crate::column_list::Columns;
use crate::fault::Mistake;
use mob_ast::SqlType;
use mob_list::fault::Fault;

/// A table of FROM, under its name or alias.
#[derive(Clone, Copy)]
pub struct ScopeTable<'a> {
    /// Its name in this SELECT: the alias, if it has one.
    pub name: &'a str,
    /// The number of the table, from 0.
    pub table: u32,
    pub columns: &'a Columns,
}

/// What an expression can name: tables of FROM, and the number of its statement. A condition of ON
/// sees a part of FROM; every other expression sees all of it.
#[derive(Clone, Copy)]
pub struct Scope<'a> {
    /// The tables, adjacent in FROM.
    pub from: &'a [ScopeTable<'a>],
    /// The number of the first of them in FROM, from 0.
    pub first: u32,
    /// The number of the statement, from 1.
    pub statement: u32,
}

/// The column that a name means.
#[derive(Clone, Copy)]
pub struct Found {
    /// The number of its table in FROM, from 0.
    pub from: u32,
    /// Its number in the table, from 0.
    pub column: u32,
    pub ty: SqlType,
}

/// The number in 32 bits. A list with more entries does not fit in memory, so a larger number is
/// `NoMemory`.
pub fn number(index: usize) -> Result<u32, Fault<Mistake>>
    ensures same { AnswersAs (λ n. n) result (Ok index) }
{
    u32::try_from(index).map_err(|_| Fault::NoMemory)
}
