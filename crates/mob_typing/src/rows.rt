//! Types INSERT and COPY.
ghost use Rattle.std.specs.Prelude.{◌≡◌, length, map, option_map, IfOk};
ghost use Rattle.mob_ast.specs.Trees.{tree_of, trees_of, row_of};
ghost use Rattle.mob_operators.specs.Lookup.{same_type};
ghost use Rattle.mob_scope.specs.Answers.{AnswersAs};
ghost use Rattle.mob_expression.specs.Steps.{TypesTo};
ghost use Rattle.mob_typing.specs.Statements.{made_seen, row_constant, lone_number, signed_value, bool_value, typed_value, node_value, tree_value, row_values, typed_row, typed_rows, inserted, good_delimiter, copied};

use crate::names::Names;
use mob_ast::{Expr, Kind, Node, Quoted, Row, SqlType, TypeWord, Word};
use mob_expression::constants::{next_constant, only};
use mob_expression::operators::is_signed;
use mob_expression::words::literal_type;
use mob_list::fault::Fault;
use mob_list::items::Items;
use mob_scope::column_list::Columns;
use mob_scope::fault::{Mistake, unless};
use mob_scope::scope::number;
use mob_typed::{ConstText, TypedStatement};
use std::alloc::{AllocError, Global};

// A constant of the statement with this number.
fn row_constant(
    alloc: Global,
    statement: u32,
    consts: &mut Items<ConstText>,
    ty: SqlType,
    text: &str,
    place: u32,
) -> Result<Option<u32>, Fault<Mistake>>
    ensures next { TypesTo (λ v. v) result consts.new (row_constant statement ty text.now place consts.old) }
{
    Ok(Some(next_constant(alloc, statement, consts, ty, text, place)?))
}

// The digits of a number and their place, if the only operand is a number.
#[tactic(auto, using(mob_expression::proofs::TreeFacts::tree_is))]
fn lone_number(args: &[Expr]) -> Option<(&str, u32)>
    ensures alone { option_map (λ r. (r.0.now, r.1)) result ≡ lone_number (trees_of args.now) }
{
    let only = only(args)?;
    match &only.node {
        Node::Number(text) => Some((text.as_str(), only.place)),
        _ => None,
    }
}

// A number with a sign before it.
fn signed_value(
    alloc: Global,
    statement: u32,
    consts: &mut Items<ConstText>,
    ty: SqlType,
    sign: &str,
    place: u32,
    args: &[Expr],
) -> Result<Option<u32>, Fault<Mistake>>
    ensures with_sign { TypesTo (λ v. v) result consts.new (signed_value statement ty sign.now place (lone_number (trees_of args.now)) consts.old) }
{
    let Some((digits, digits_place)) = lone_number(args) else {
        return Err(Fault::Because(Mistake {
            kind: Kind::NoSuchOperator,
            place,
        }));
    };
    unless(!is_signed(sign), Kind::NoSuchOperator, place)?;
    let mut text = String::from_str(alloc, sign)?;
    text.push_str(digits)?;
    row_constant(alloc, statement, consts, ty, text.as_str(), digits_place)
}

// Whether two types are the same.
fn is_same(a: SqlType, b: SqlType) -> bool
    ensures same { result ≡ same_type a b }
{
    a == b
}

// TRUE or FALSE, which only a bool column takes.
fn bool_value(
    alloc: Global,
    statement: u32,
    consts: &mut Items<ConstText>,
    ty: SqlType,
    text: &str,
    place: u32,
) -> Result<Option<u32>, Fault<Mistake>>
    ensures of_bool { TypesTo (λ v. v) result consts.new (bool_value statement ty text.now place consts.old) }
{
    unless(!is_same(ty, SqlType::Bool), Kind::NoSuchOperator, place)?;
    row_constant(alloc, statement, consts, ty, text, place)
}

// A typed string, whose type must be that of the column.
fn typed_value(
    alloc: Global,
    statement: u32,
    consts: &mut Items<ConstText>,
    ty: SqlType,
    word: &TypeWord,
    text: &str,
    place: u32,
) -> Result<Option<u32>, Fault<Mistake>>
    ensures own_type { TypesTo (λ v. v) result consts.new (typed_value statement ty word.now text.now place consts.old) }
{
    let Some(own) = literal_type(word, text) else {
        return Err(Fault::Because(Mistake {
            kind: Kind::UnknownName,
            place: word.name.place,
        }));
    };
    unless(!is_same(own, ty), Kind::NoSuchOperator, place)?;
    row_constant(alloc, statement, consts, ty, text, place)
}

// A value of a row, read as a value of the column's type.
#[tactic(auto, unfolding(crate::specs::Statements::node_value))]
fn node_value(
    alloc: Global,
    statement: u32,
    consts: &mut Items<ConstText>,
    ty: SqlType,
    node: &Node,
    place: u32,
    args: &[Expr],
) -> Result<Option<u32>, Fault<Mistake>>
    ensures read { TypesTo (λ v. v) result consts.new (node_value statement ty node.now place (trees_of args.now) consts.old) }
{
    match node {
        Node::Null => Ok(None),
        Node::True => bool_value(alloc, statement, consts, ty, "true", place),
        Node::False => bool_value(alloc, statement, consts, ty, "false", place),
        Node::Number(text) => row_constant(alloc, statement, consts, ty, text.as_str(), place),
        Node::Str(text) => row_constant(alloc, statement, consts, ty, text.as_str(), place),
        Node::Literal { ty: word, text } => typed_value(
            alloc,
            statement,
            consts,
            ty,
            word,
            text.as_str(),
            place,
        ),
        Node::Sign(sign) => signed_value(alloc, statement, consts, ty, sign.as_str(), place, args),
        _ => Err(Fault::Because(Mistake {
            kind: Kind::NoSuchOperator,
            place,
        })),
    }
}

fn tree_value(
    alloc: Global,
    statement: u32,
    consts: &mut Items<ConstText>,
    ty: SqlType,
    e: &Expr,
) -> Result<Option<u32>, Fault<Mistake>>
    ensures read { TypesTo (λ v. v) result consts.new (tree_value statement ty (tree_of e.now) consts.old) }
{
    node_value(alloc, statement, consts, ty, &e.node, e.place, &e.args)
}

// The values of a row, one for each column.
fn row_values(
    alloc: Global,
    statement: u32,
    consts: &mut Items<ConstText>,
    columns: &Columns,
    values: &[Expr],
) -> Result<Items<Option<u32>>, Fault<Mistake>>
    requires one_each { length values.now ≡ length columns.now }
    ensures in_order { TypesTo (λ v. v) result consts.new (row_values statement columns.now (map tree_of values.now) consts.old) }
{
    let mut done = Items::new(alloc);
    for (index, value) in values.iter().enumerate() {
        let (_, ty) = columns.at(index);
        let number = tree_value(alloc, statement, consts, ty, value)?;
        done.push(number)?;
    }
    Ok(done)
}

// A row, which must have as many values as the table has columns.
fn typed_row(
    alloc: Global,
    statement: u32,
    consts: &mut Items<ConstText>,
    columns: &Columns,
    row: &Row,
) -> Result<Items<Option<u32>>, Fault<Mistake>>
    ensures row { TypesTo (λ v. v) result consts.new (typed_row statement columns.now (row_of row.now) consts.old) }
{
    if row.values.len() != columns.len() {
        return Err(Fault::Because(Mistake {
            kind: Kind::BadCount,
            place: row.place,
        }));
    }
    row_values(alloc, statement, consts, columns, row.values.as_slice())
}

// The rows, in order.
fn typed_rows(
    alloc: Global,
    statement: u32,
    consts: &mut Items<ConstText>,
    columns: &Columns,
    rows: &[Row],
) -> Result<Items<Items<Option<u32>>>, Fault<Mistake>>
    ensures in_order { TypesTo (λ v. v) result consts.new (typed_rows statement columns.now (map row_of rows.now) consts.old) }
{
    let mut done = Items::new(alloc);
    for row in rows {
        let values = typed_row(alloc, statement, consts, columns, row)?;
        done.push(values)?;
    }
    Ok(done)
}

// The places of the rows' opening brackets.
fn places_of(alloc: Global, rows: &[Row]) -> Result<Items<u32>, AllocError>
    ensures places { IfOk result (λ v. v ≡ map (λ r. r.place) (map row_of rows.now)) }
{
    let mut places = Items::new(alloc);
    for row in rows {
        places.push(row.place)?;
    }
    Ok(places)
}

/// Types an INSERT. Returns it with its rows, or the first mistake.
pub fn inserted(
    alloc: Global,
    statement: u32,
    names: &Names,
    consts: &mut Items<ConstText>,
    table: &Word,
    rows: &Items<Row>,
) -> Result<TypedStatement, Fault<Mistake>>
    ensures made { TypesTo (made_seen names.now) result consts.new (inserted statement names.now table.now (map row_of rows.now) consts.old) }
{
    let Some((index, columns)) = names.find(table.text.as_str()) else {
        return Err(Fault::Because(Mistake {
            kind: Kind::UnknownName,
            place: table.place,
        }));
    };
    let values = typed_rows(alloc, statement, consts, columns, rows.as_slice())?;
    let places = places_of(alloc, rows.as_slice())?;
    let table = number(index)?;
    Ok(TypedStatement::Insert {
        table,
        rows: values,
        places,
    })
}

// Checks that the string after DELIMITER is one comma.
fn good_delimiter(delimiter: &Option<Quoted>) -> Result<(), Fault<Mistake>>
    ensures comma { AnswersAs (λ u. u) result (good_delimiter delimiter.now) }
{
    let Some(string) = delimiter else {
        return Ok(());
    };
    let other = string.text.as_str() != ",";
    unless(other, Kind::NoSuchOperator, string.place)
}

/// Types a COPY. Returns it, or the first mistake.
pub fn copied(
    alloc: Global,
    names: &Names,
    table: &Word,
    file: &Quoted,
    delimiter: &Option<Quoted>,
) -> Result<TypedStatement, Fault<Mistake>>
    ensures made { AnswersAs (made_seen names.now) result (copied names.now table.now file.now delimiter.now) }
{
    let Some((index, _)) = names.find(table.text.as_str()) else {
        return Err(Fault::Because(Mistake {
            kind: Kind::UnknownName,
            place: table.place,
        }));
    };
    good_delimiter(delimiter)?;
    let table = number(index)?;
    let file = file.text.copy(alloc)?;
    Ok(TypedStatement::Copy { table, file })
}
