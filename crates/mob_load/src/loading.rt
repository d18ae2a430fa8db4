//! The state of loading.

use mob_ast::SqlType;
use mob_list::items::Items;
use mob_list::text::Text;
use mob_value::{Rows, Value};

/// What was read so far.
#[derive(Drop)]
pub struct Loading<'a> {
    /// The values of the literals.
    pub values: Items<Value>,
    /// The columns of the tables.
    pub tables: Vec<&'a [(Text, SqlType)]>,
    /// How many rows each table has.
    pub rows: Vec<u32>,
    /// The rows of the files.
    pub files: Items<Rows<Value>>,
}
