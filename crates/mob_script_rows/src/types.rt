//! Scripts and the type of their first item, and the names of refusals. Which scripts are refused
//! is in `checks/rows`.

use mob_ast::{Kind, SqlType};
use mob_operators::Op;
use mob_parse::script::parse;
use mob_typed::{TExpr, Typed, TypedStatement};
use mob_typing::type_script;
use std::alloc::Global;

// A script of one query, and the operator and type of its first item.
static TYPED: [(&str, Op, SqlType); 7] = [
    ("SELECT 1.5", Op::Const(0), SqlType::Numeric),
    ("SELECT '1'::int", Op::Cast, SqlType::Int),
    ("SELECT 1::numeric", Op::Cast, SqlType::Numeric),
    ("SELECT 1::int", Op::Cast, SqlType::Int),
    (
        "SELECT tint '1@2001-01-01'::tfrac",
        Op::Cast,
        SqlType::TFrac,
    ),
    ("SELECT tint '1@2001-01-01' + 1", Op::Add, SqlType::TInt),
    ("SELECT 1 / 2", Op::Divide, SqlType::Numeric),
];

fn typed(alloc: Global, script: &str) -> Option<Typed> {
    if script.len() > 1000 {
        return None;
    }
    match parse(alloc, script.as_bytes()) {
        Ok(trees) => type_script(alloc, trees).ok(),
        Err(_) => None,
    }
}

// The first item of the only statement.
fn item_of(typed: &Typed) -> Option<&TExpr> {
    match typed.statements.as_slice() {
        [TypedStatement::Select(select)] => match select.items.as_slice().first() {
            Some(item) => Some(&item.0),
            None => None,
        },
        _ => None,
    }
}

fn is_first(typed: &Typed, op: Op, ty: SqlType) -> bool {
    match item_of(typed) {
        Some(item) => item.op == op && item.ty == ty,
        None => false,
    }
}

fn has_type(alloc: Global, script: &str, op: Op, ty: SqlType) -> bool {
    match &typed(alloc, script) {
        Some(typed) => is_first(typed, op, ty),
        None => false,
    }
}

#[test]
fn scripts_have_types(rt: HostRuntime) {
    for (script, op, ty) in &TYPED {
        assert!(rt; has_type(rt.alloc(), script, *op, *ty), "{script}");
    }
}

static KINDS: [(Kind, u8, &str); 16] = [
    (Kind::NotUtf8, 1, "NotUtf8"),
    (Kind::Lexical, 2, "Lexical"),
    (Kind::Syntax, 3, "Syntax"),
    (Kind::TooComplex, 4, "TooComplex"),
    (Kind::NoMemory, 5, "NoMemory"),
    (Kind::UnknownName, 6, "UnknownName"),
    (Kind::Duplicate, 7, "Duplicate"),
    (Kind::NoSuchOperator, 8, "NoSuchOperator"),
    (Kind::LinearProduct, 9, "LinearProduct"),
    (Kind::Irrational, 10, "Irrational"),
    (Kind::ZeroDivisor, 11, "ZeroDivisor"),
    (Kind::BadCount, 12, "BadCount"),
    (Kind::Limit, 13, "Limit"),
    (Kind::BadLiteral, 14, "BadLiteral"),
    (Kind::BadHeader, 15, "BadHeader"),
    (Kind::BadRecord, 16, "BadRecord"),
];

#[test]
fn refusals_have_numbers_and_names(rt: HostRuntime) {
    for (kind, number, name) in &KINDS {
        assert!(rt; kind.number() == *number && kind.name() == *name);
    }
}
