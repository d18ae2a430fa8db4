//! Typed scripts: names are numbers, and each expression has its operator and its type.

use mob_ast::SqlType;
use mob_list::items::Items;
use mob_list::text::Text;
use mob_operators::{AggKind, Op};

/// A typed expression.
#[derive(Drop)]
pub struct TExpr {
    /// The operator that is applied to the arguments.
    pub op: Op,
    pub ty: SqlType,
    /// Its place in the script, in bytes from 0.
    pub place: u32,
    /// Its arguments, from left to right.
    pub args: Vec<TExpr>,
}

/// A constant of the script, not yet read as a value of its type.
#[derive(Drop)]
pub struct ConstText {
    pub ty: SqlType,
    /// The text to read: a string without its outer quotes, a number, `true` or `false`. A number
    /// of an INSERT has its sign.
    pub text: Text,
    /// The number of its statement, from 1.
    pub statement: u32,
    /// The place of its opening quote, first digit or word, in bytes from 0.
    pub place: u32,
}

/// The aggregate of an item of a grouped query, over the values of the item in each group.
#[derive(Clone, Copy, Debug, PartialEq, Eq)]
pub struct Agg {
    pub kind: AggKind,
    /// The type of its result.
    pub ty: SqlType,
    /// The place of its name in the script, in bytes from 0.
    pub place: u32,
}

/// A typed SELECT.
#[derive(Drop)]
pub struct TypedSelect {
    /// Whether equal rows are dropped.
    pub distinct: bool,
    /// The columns of the answer, each with its name.
    pub items: Items<(TExpr, Text)>,
    /// The numbers of the tables of FROM.
    pub from: Items<u32>,
    /// For each table of FROM its name in this SELECT: the alias, if it has one.
    pub names: Items<Text>,
    /// The ON of each table of FROM, of type bool; `None` for a table that is not left-joined.
    pub joins: Items<Option<TExpr>>,
    /// The condition of WHERE, of type bool.
    pub cond: Option<TExpr>,
    /// Whether the query is grouped: it has GROUP BY or an aggregate.
    pub grouped: bool,
    /// The columns of GROUP BY; empty without it.
    pub groups: Items<TExpr>,
    /// For each column of the answer, the aggregate over its expression, or `None`. The expression
    /// of `count(*)` is NULL and is not evaluated.
    pub aggs: Items<Option<Agg>>,
    /// The keys of ORDER BY; true means DESC.
    pub keys: Items<(TExpr, bool)>,
    /// For each key that is an AS name, the number of its column of the answer, from 0; else
    /// `None`. In a grouped query such a key has the value of that column, and its own expression
    /// is not evaluated.
    pub key_items: Items<Option<u32>>,
    /// The greatest number of rows of the answer; `None` without LIMIT.
    pub limit: Option<u64>,
}

/// A typed statement. Tables, columns and constants are numbers from 0.
#[derive(Drop)]
pub enum TypedStatement {
    /// An empty statement.
    Empty,
    /// A new table.
    CreateTable {
        /// Its number, from 0: how many tables the script made before.
        table: u32,
        name: Text,
        /// Its columns, each with its type.
        columns: Items<(Text, SqlType)>,
    },
    /// A new index on a column of type tgeompoint.
    CreateIndex {
        /// The number of the table.
        table: u32,
        /// The number of the column in the table.
        column: u32,
        /// The name of the index.
        name: Text,
    },
    /// New rows.
    Insert {
        /// The number of the table.
        table: u32,
        /// The rows: for each column the number of a constant, or `None` for NULL.
        rows: Items<Items<Option<u32>>>,
        /// The place of each row's opening bracket, in bytes from 0.
        places: Items<u32>,
    },
    /// New rows from a file.
    Copy {
        /// The number of the table.
        table: u32,
        file: Text,
    },
    /// Deletes the rows of the one table of FROM that meet the condition. The answer has no
    /// columns.
    Delete(TypedSelect),
    /// A query.
    Select(TypedSelect),
    /// A query whose plan is printed.
    Explain(TypedSelect),
}

/// A typed script.
#[derive(Drop)]
pub struct Typed {
    /// One statement for each place before, between and after the `;` tokens.
    pub statements: Items<TypedStatement>,
    /// The constants in written order.
    pub consts: Items<ConstText>,
}
