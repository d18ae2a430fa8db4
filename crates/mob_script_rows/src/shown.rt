//! Trees as text, for tests: each node with its place after `@`, then its arguments in brackets.

use mob_ast::{
    Expr, FromTable, Item, Key, Node, Quoted, Row, SelectTree, Statement, TypeWord, Word,
};
use std::alloc::{AllocError, Global};

// A mark, a text and its place.
fn put(
    alloc: Global,
    mark: &str,
    text: &str,
    place: u32,
    into: &mut String,
) -> Result<(), AllocError> {
    into.push_str(format!(in alloc; "{}{}@{}", mark, text, place)?.as_str())
}

// A word after a mark.
fn put_word(alloc: Global, mark: &str, word: &Word, into: &mut String) -> Result<(), AllocError> {
    put(alloc, mark, word.text.as_str(), word.place, into)
}

fn show_type(
    alloc: Global,
    mark: &str,
    ty: &TypeWord,
    into: &mut String,
) -> Result<(), AllocError> {
    put_word(alloc, mark, &ty.name, into)?;
    if let Some(inner) = &ty.inner {
        put_word(alloc, "(", inner, into)?;
        into.push(')')?;
    }
    Ok(())
}

// A column after its table; on its own, with its place if that is not the place of the node.
fn show_column(
    alloc: Global,
    table: &Option<Word>,
    column: &Word,
    place: u32,
    into: &mut String,
) -> Result<(), AllocError> {
    if let Some(table) = table {
        put_word(alloc, "", table, into)?;
        return put_word(alloc, ".", column, into);
    }
    if column.place == place {
        return into.push_str(column.text.as_str());
    }
    put_word(alloc, "", column, into)
}

// A text, printed like a string.
fn show_text(alloc: Global, text: &str, into: &mut String) -> Result<(), AllocError> {
    into.push_str(format!(in alloc; "'{}", text)?.as_str())
}

fn show_literal(
    alloc: Global,
    ty: &TypeWord,
    text: &str,
    into: &mut String,
) -> Result<(), AllocError> {
    show_type(alloc, "", ty, into)?;
    show_text(alloc, text, into)
}

fn show_node(alloc: Global, e: &Expr, into: &mut String) -> Result<(), AllocError> {
    match &e.node {
        Node::Null => into.push_str("NULL"),
        Node::True => into.push_str("TRUE"),
        Node::False => into.push_str("FALSE"),
        Node::Number(text) => into.push_str(text.as_str()),
        Node::Str(text) => show_text(alloc, text.as_str(), into),
        Node::Literal { ty, text } => show_literal(alloc, ty, text.as_str(), into),
        Node::Column { table, column } => show_column(alloc, table, column, e.place, into),
        Node::Call(name) => into.push_str(name.as_str()),
        Node::Sign(sign) => into.push_str(sign.as_str()),
        Node::Cast(ty) => show_type(alloc, "::", ty, into),
        Node::Not => into.push_str("NOT"),
        Node::And => into.push_str("AND"),
        Node::Or => into.push_str("OR"),
        Node::IsNull => into.push_str("IS NULL"),
        Node::IsNotNull => into.push_str("IS NOT NULL"),
    }
}

fn show(alloc: Global, e: &Expr, into: &mut String) -> Result<(), AllocError> {
    show_node(alloc, e, into)?;
    put(alloc, "", "", e.place, into)?;
    if e.args.is_empty() {
        return Ok(());
    }
    into.push('[')?;
    for arg in &e.args {
        into.push(' ')?;
        show(alloc, arg, into)?;
    }
    into.push(']')
}

fn show_item(alloc: Global, item: &Item, into: &mut String) -> Result<(), AllocError> {
    match item {
        Item::All { place } => {
            put(alloc, " *", "", *place, into)?;
            into.push(';')
        }
        Item::One { value, alias } => {
            into.push(' ')?;
            show(alloc, value, into)?;
            show_alias(alloc, alias, into)
        }
        Item::CountAll { place, alias } => {
            put(alloc, " count(*)", "", *place, into)?;
            show_alias(alloc, alias, into)
        }
    }
}

fn show_alias(alloc: Global, alias: &Option<Word>, into: &mut String) -> Result<(), AllocError> {
    if let Some(name) = alias {
        put_word(alloc, " as ", name, into)?;
    }
    into.push(';')
}

// A condition after its word.
fn show_cond(
    alloc: Global,
    word: &str,
    cond: &Option<Expr>,
    into: &mut String,
) -> Result<(), AllocError> {
    if let Some(cond) = cond {
        into.push_str(word)?;
        show(alloc, cond, into)?;
        into.push(';')?;
    }
    Ok(())
}

fn show_from(alloc: Global, from: &[FromTable], into: &mut String) -> Result<(), AllocError> {
    for entry in from {
        put_word(alloc, " from ", &entry.table, into)?;
        show_alias(alloc, &entry.alias, into)?;
        show_cond(alloc, " on ", &entry.on, into)?;
    }
    Ok(())
}

fn show_groups(alloc: Global, groups: &[Expr], into: &mut String) -> Result<(), AllocError> {
    for column in groups {
        into.push_str(" group ")?;
        show(alloc, column, into)?;
        into.push(';')?;
    }
    Ok(())
}

fn show_keys(alloc: Global, keys: &[Key], into: &mut String) -> Result<(), AllocError> {
    for key in keys {
        into.push_str(" by ")?;
        show(alloc, &key.value, into)?;
        into.push_str(if key.descending { " desc;" } else { ";" })?;
    }
    Ok(())
}

fn show_limit(alloc: Global, limit: &Option<Word>, into: &mut String) -> Result<(), AllocError> {
    if let Some(limit) = limit {
        put_word(alloc, " limit ", limit, into)?;
        into.push(';')?;
    }
    Ok(())
}

fn show_items(alloc: Global, select: &SelectTree, into: &mut String) -> Result<(), AllocError> {
    into.push_str(if select.distinct {
        "select distinct"
    } else {
        "select"
    })?;
    for item in select.items.as_slice() {
        show_item(alloc, item, into)?;
    }
    Ok(())
}

fn show_select(alloc: Global, select: &SelectTree, into: &mut String) -> Result<(), AllocError> {
    show_items(alloc, select, into)?;
    show_from(alloc, select.from.as_slice(), into)?;
    show_cond(alloc, " where ", &select.cond, into)?;
    show_groups(alloc, select.groups.as_slice(), into)?;
    show_keys(alloc, select.keys.as_slice(), into)?;
    show_limit(alloc, &select.limit, into)
}

fn show_columns(
    alloc: Global,
    columns: &[(Word, TypeWord)],
    into: &mut String,
) -> Result<(), AllocError> {
    for column in columns {
        put_word(alloc, "; ", &column.0, into)?;
        show_type(alloc, " ", &column.1, into)?;
    }
    into.push(';')
}

fn show_index(
    alloc: Global,
    name: &Word,
    table: &Word,
    column: &Word,
    into: &mut String,
) -> Result<(), AllocError> {
    put_word(alloc, "index ", name, into)?;
    put_word(alloc, " on ", table, into)?;
    put_word(alloc, ".", column, into)?;
    into.push(';')
}

fn show_row(alloc: Global, row: &Row, into: &mut String) -> Result<(), AllocError> {
    put(alloc, " row", "", row.place, into)?;
    for value in row.values.as_slice() {
        into.push(' ')?;
        show(alloc, value, into)?;
    }
    into.push(';')
}

fn show_rows(alloc: Global, rows: &[Row], into: &mut String) -> Result<(), AllocError> {
    into.push(';')?;
    for row in rows {
        show_row(alloc, row, into)?;
    }
    Ok(())
}

fn show_copy(
    alloc: Global,
    table: &Word,
    file: &Quoted,
    delimiter: &Option<Quoted>,
    into: &mut String,
) -> Result<(), AllocError> {
    put_word(alloc, "copy ", table, into)?;
    put(alloc, " '", file.text.as_str(), file.place, into)?;
    if let Some(delimiter) = delimiter {
        put(
            alloc,
            " delimiter '",
            delimiter.text.as_str(),
            delimiter.place,
            into,
        )?;
    }
    into.push(';')
}

/// A statement as text; an empty one is a full stop.
pub fn show_statement(
    alloc: Global,
    statement: &Statement,
    into: &mut String,
) -> Result<(), AllocError> {
    match statement {
        Statement::Empty => into.push('.'),
        Statement::CreateTable { name, columns } => {
            put_word(alloc, "table ", name, into)?;
            show_columns(alloc, columns.as_slice(), into)
        }
        Statement::CreateIndex {
            name,
            table,
            column,
        } => show_index(alloc, name, table, column, into),
        Statement::Insert { table, rows } => {
            put_word(alloc, "insert ", table, into)?;
            show_rows(alloc, rows.as_slice(), into)
        }
        Statement::Copy {
            table,
            file,
            delimiter,
        } => show_copy(alloc, table, file, delimiter, into),
        Statement::Delete { table, cond } => {
            put_word(alloc, "delete ", table, into)?;
            into.push(';')?;
            show_cond(alloc, " where ", cond, into)
        }
        Statement::Select(select) => show_select(alloc, select, into),
        Statement::Explain(select) => {
            into.push_str("explain ")?;
            show_select(alloc, select, into)
        }
    }
}
