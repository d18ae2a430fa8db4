//! Expressions that no script has: operators on operands of wrong types, NULL, and numbers without
//! a constant, table or column.

use mob_ast::{Cmp, SqlType};
use mob_catalog::Catalog;
use mob_eval::eval;
use mob_frac::Frac;
use mob_list::items::Items;
use mob_list::text::Text;
use mob_meaning::Terms;
use mob_operators::Op;
use mob_scalar::Epoch;
use mob_slice::Mode;
use mob_typed::TExpr;
use mob_value::{Store, Value};
use std::alloc::{AllocError, Global};

fn number(value: i64) -> Value {
    match Frac::new(value, 1) {
        Ok(number) => Value::Number(number),
        Err(_) => Value::Null,
    }
}

// Puts a row of two values into the first table.
fn put(alloc: Global, catalog: &mut Catalog, one: Value, other: Value) -> Result<(), AllocError> {
    let row = Vec::from_array(alloc, [one, other])?;
    catalog.add_row(0, Items::from_vec(row))
}

// Whether there is now a first table with the rows (1, 5), (2, NULL) and (3, 7).
fn is_filled(alloc: Global, catalog: &mut Catalog) -> bool {
    catalog.create_table(Items::new(alloc)).is_ok()
        && put(alloc, catalog, number(1), number(5)).is_ok()
        && put(alloc, catalog, number(2), Value::Null).is_ok()
        && put(alloc, catalog, number(3), number(7)).is_ok()
}

// An operator on constants, by their numbers.
fn node(alloc: Global, op: Op, operands: &[u32]) -> Result<TExpr, AllocError> {
    let mut args = Vec::new(alloc);
    for number in operands {
        args.push(TExpr {
            op: Op::Const(*number),
            ty: SqlType::Bool,
            place: 0,
            args: Vec::new(alloc),
        })?;
    }
    Ok(TExpr {
        op,
        ty: SqlType::Bool,
        place: 0,
        args,
    })
}

// Operators and numbers of constants that no typed script has, or that give NULL: 0 is the number
// 1, 1 is a text, 2 is true, 3 is NULL, 4 is the number 0.
static UNTYPED: [(Op, &[u32]); 13] = [
    (Op::Const(99), &[]),
    (Op::Column { from: 1, column: 0 }, &[]),
    (Op::Column { from: 0, column: 9 }, &[]),
    (Op::Null, &[]),
    (Op::Overlap, &[0, 0]),
    (Op::Add, &[0, 0, 0]),
    (Op::Add, &[3, 0]),
    (Op::Divide, &[0, 4]),
    (Op::Test(Cmp::Lt), &[2, 2]),
    (Op::Lifted(Cmp::Eq), &[0, 0]),
    (Op::Join, &[0, 1]),
    (Op::AsText, &[3]),
    (Op::Not, &[3]),
];

fn is_nothing(alloc: Global, store: &Store, e: &TExpr) -> bool {
    let terms = Terms {
        epoch: Epoch::standard(),
        mode: Mode::Narrow,
    };
    matches!(&eval(alloc, e, store, &[0], &[1], &terms), Ok(Value::Null))
}

fn is_null(alloc: Global, store: &Store, op: Op, operands: &[u32]) -> bool {
    match &node(alloc, op, operands) {
        Ok(e) => is_nothing(alloc, store, e),
        Err(_) => false,
    }
}

fn constants(alloc: Global) -> Result<Items<Value>, AllocError> {
    let text = Text::from_str(alloc, "b")?;
    let values = [
        number(1),
        Value::Text(text),
        Value::Bool(true),
        Value::Null,
        number(0),
    ];
    Ok(Items::from_vec(Vec::from_array(alloc, values)?))
}

fn are_null(alloc: Global, store: &Store) -> bool {
    for (op, operands) in &UNTYPED {
        if !is_null(alloc, store, *op, operands) {
            return false;
        }
    }
    true
}

fn are_null_on(alloc: Global, values: Items<Value>) -> bool {
    let mut catalog = Catalog::new(alloc, values);
    is_filled(alloc, &mut catalog) && are_null(alloc, catalog.store())
}

#[test]
fn what_no_script_gives_is_null(rt: HostRuntime) {
    match constants(rt.alloc()) {
        Ok(values) => assert!(rt; are_null_on(rt.alloc(), values)),
        Err(_) => assert!(rt; false),
    }
}
