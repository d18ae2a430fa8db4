//! The checks of a script before it runs.

use mob_ast::SqlType;
use mob_list::text::Text;
use mob_typed::ConstText;

/// A check before a script runs.
#[derive(Clone, Copy)]
pub enum Check<'a> {
    /// A literal, read as its type.
    Literal(&'a ConstText),
    /// A new table with these columns.
    Table(&'a [(Text, SqlType)]),
    /// A row of an INSERT into the table of this number, which must have room for one more.
    Room {
        /// The table.
        table: u32,
        /// The number of the statement, from 1.
        statement: u32,
        /// The place of the row's opening bracket, in bytes from 0.
        place: u32,
    },
    /// A file whose rows go into the table of this number.
    File {
        /// The table.
        table: u32,
        /// The name of the file.
        name: &'a Text,
    },
}
