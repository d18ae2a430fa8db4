//! The data that queries read: the rows of the tables, and the constants of the script.

use crate::rows::Rows;
use crate::value::Value;
use mob_list::items::Items;

/// The rows of a table, in the order of insertion. Each row has a value for each column.
#[derive(Drop)]
pub struct Table {
    pub rows: Rows<Value>,
}

/// The tables, in the order of creation, and the constants of the script, in written order.
#[derive(Drop)]
pub struct Store {
    pub tables: Items<Table>,
    pub consts: Items<Value>,
}
