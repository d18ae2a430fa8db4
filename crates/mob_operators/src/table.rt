//! The table of operators, after MobilityDB's manual and PostgreSQL.

use crate::operator::{Op, Spelling};
use mob_ast::{Cmp, SqlType};

/// The condition of a row on its arguments, beyond their types.
#[derive(Clone, Copy, Debug, PartialEq, Eq)]
pub enum Bond {
    /// Nothing.
    Free,
    /// At least one argument is temporal.
    OneMoving,
    /// Both arguments have the same type.
    SameType,
    /// The last argument is a number literal.
    ByLiteral,
}

/// The type of the result of a row.
#[derive(Clone, Copy, Debug, PartialEq, Eq)]
pub enum ResultType {
    /// This type.
    Only(SqlType),
    /// The type of the first argument.
    First,
    /// The first of these types if every argument is whole, an int or a tint; else the second.
    Whole(SqlType, SqlType),
}

/// A row of the table: how its operators are written, what they take and what they give.
#[derive(Clone, Copy)]
pub struct Row {
    /// Whether its operators are words, signs or functions.
    pub form: Spelling,
    /// Each operator with its name, in lower case.
    pub names: &'static [(&'static str, Op)],
    /// For each argument, the types that the row takes.
    pub takes: &'static [&'static [SqlType]],
    /// The condition on the arguments beyond their types.
    pub bond: Bond,
    /// The type of the result.
    pub gives: ResultType,
}

const BOOL: &'static [SqlType] = &[SqlType::Bool];

const INT: &'static [SqlType] = &[SqlType::Int];

pub const NUMBER: &'static [SqlType] = &[SqlType::Int, SqlType::Numeric];

const TEXT: &'static [SqlType] = &[SqlType::Text];

const MOMENT: &'static [SqlType] = &[SqlType::Moment];

const POINT: &'static [SqlType] = &[SqlType::Point];

const POLYGON: &'static [SqlType] = &[SqlType::Polygon];

const BOX: &'static [SqlType] = &[SqlType::Box];

pub const TBOOL: &'static [SqlType] = &[SqlType::TBool];

const TINT: &'static [SqlType] = &[SqlType::TInt];

const TFRAC: &'static [SqlType] = &[SqlType::TFrac];

pub const TNUMBER: &'static [SqlType] = &[SqlType::TInt, SqlType::TFrac];

const TTEXT: &'static [SqlType] = &[SqlType::TText];

const TPOINT: &'static [SqlType] = &[SqlType::TPoint];

// The plain types of one kind of value, and the temporal type of that kind.
const BOOL_KIND: &'static [SqlType] = &[SqlType::Bool, SqlType::TBool];

const NUMBER_KIND: &'static [SqlType] = &[
    SqlType::Int,
    SqlType::Numeric,
    SqlType::TInt,
    SqlType::TFrac,
];

const TEXT_KIND: &'static [SqlType] = &[SqlType::Text, SqlType::TText];

const POINT_KIND: &'static [SqlType] = &[SqlType::Point, SqlType::TPoint];

pub const TEMPORAL: &'static [SqlType] = &[
    SqlType::TBool,
    SqlType::TInt,
    SqlType::TFrac,
    SqlType::TText,
    SqlType::TPoint,
];

const TIME: &'static [SqlType] = &[SqlType::Moment, SqlType::Span, SqlType::SpanSet];

const BOXED: &'static [SqlType] = &[SqlType::Box, SqlType::TPoint];

const PRINTED: &'static [SqlType] = &[
    SqlType::TBool,
    SqlType::TInt,
    SqlType::TFrac,
    SqlType::TText,
    SqlType::TPoint,
    SqlType::Point,
    SqlType::Polygon,
    SqlType::Span,
    SqlType::SpanSet,
    SqlType::Box,
];

// `=` takes all types but polygons.
const COMPARED: &'static [SqlType] = &[
    SqlType::Bool,
    SqlType::Int,
    SqlType::Numeric,
    SqlType::Text,
    SqlType::Moment,
    SqlType::Point,
    SqlType::Span,
    SqlType::SpanSet,
    SqlType::Box,
    SqlType::TBool,
    SqlType::TInt,
    SqlType::TFrac,
    SqlType::TText,
    SqlType::TPoint,
];

const ANY: &'static [SqlType] = &[
    SqlType::Bool,
    SqlType::Int,
    SqlType::Numeric,
    SqlType::Text,
    SqlType::Moment,
    SqlType::Point,
    SqlType::Polygon,
    SqlType::Span,
    SqlType::SpanSet,
    SqlType::Box,
    SqlType::TBool,
    SqlType::TInt,
    SqlType::TFrac,
    SqlType::TText,
    SqlType::TPoint,
];

const EQUALS: &'static [(&'static str, Op)] = &[
    ("=", Op::Test(Cmp::Eq)),
    ("<>", Op::Test(Cmp::Ne)),
];

const ORDERS: &'static [(&'static str, Op)] = &[
    ("<", Op::Test(Cmp::Lt)),
    ("<=", Op::Test(Cmp::Le)),
    (">", Op::Test(Cmp::Gt)),
    (">=", Op::Test(Cmp::Ge)),
];

const LIFTED_EQUALS: &'static [(&'static str, Op)] = &[
    ("#=", Op::Lifted(Cmp::Eq)),
    ("#<>", Op::Lifted(Cmp::Ne)),
];

const LIFTED_ORDERS: &'static [(&'static str, Op)] = &[
    ("#<", Op::Lifted(Cmp::Lt)),
    ("#<=", Op::Lifted(Cmp::Le)),
    ("#>", Op::Lifted(Cmp::Gt)),
    ("#>=", Op::Lifted(Cmp::Ge)),
];

// `?` asks for some instant, `%` for every instant.
const EVER_EQUALS: &'static [(&'static str, Op)] = &[
    ("?=", Op::Ever(Cmp::Eq)),
    ("?<>", Op::Ever(Cmp::Ne)),
    ("%=", Op::Always(Cmp::Eq)),
    ("%<>", Op::Always(Cmp::Ne)),
];

const EVER_ORDERS: &'static [(&'static str, Op)] = &[
    ("?<", Op::Ever(Cmp::Lt)),
    ("?<=", Op::Ever(Cmp::Le)),
    ("?>", Op::Ever(Cmp::Gt)),
    ("?>=", Op::Ever(Cmp::Ge)),
    ("%<", Op::Always(Cmp::Lt)),
    ("%<=", Op::Always(Cmp::Le)),
    ("%>", Op::Always(Cmp::Gt)),
    ("%>=", Op::Always(Cmp::Ge)),
];

const SUMS: &'static [(&'static str, Op)] = &[("+", Op::Add), ("-", Op::Subtract)];

const TIMES: &'static [(&'static str, Op)] = &[("*", Op::Multiply)];

const OVER: &'static [(&'static str, Op)] = &[("/", Op::Divide)];

const JOIN: &'static [(&'static str, Op)] = &[("||", Op::Join)];

const AT_VALUES: &'static [(&'static str, Op)] = &[
    ("atvalues", Op::AtValues),
    ("minusvalues", Op::MinusValues),
];

const VALUE_AT: &'static [(&'static str, Op)] = &[("valueattimestamp", Op::ValueAtTimestamp)];

const TO_BOOL: ResultType = ResultType::Only(SqlType::Bool);

const TO_TBOOL: ResultType = ResultType::Only(SqlType::TBool);

const TO_NUMBER: ResultType = ResultType::Whole(SqlType::Int, SqlType::Numeric);

const TO_TNUMBER: ResultType = ResultType::Whole(SqlType::TInt, SqlType::TFrac);

// Writes a row of the table on one line.
macro_rules! row {
    ($form:ident, $names:expr, [$($class:expr),*], $bond:ident, $gives:expr) => {
        Row { form: Spelling::$form, names: $names, takes: &[$($class),*], bond: Bond::$bond, gives: $gives }
    };
}

/// The rows of the table.
pub static ROWS: [Row; 58] = [
    row!(Word, &[("not", Op::Not)], [BOOL], Free, TO_BOOL),
    row!(
        Word,
        &[("and", Op::And), ("or", Op::Or)],
        [BOOL, BOOL],
        Free,
        TO_BOOL
    ),
    row!(
        Word,
        &[("is null", Op::IsNull), ("is not null", Op::IsNotNull)],
        [ANY],
        Free,
        TO_BOOL
    ),
    row!(Sign, EQUALS, [COMPARED, COMPARED], SameType, TO_BOOL),
    row!(Sign, EQUALS, [NUMBER, NUMBER], Free, TO_BOOL),
    row!(Sign, EQUALS, [TNUMBER, TNUMBER], Free, TO_BOOL),
    row!(Sign, ORDERS, [NUMBER, NUMBER], Free, TO_BOOL),
    row!(Sign, ORDERS, [TEXT, TEXT], Free, TO_BOOL),
    row!(Sign, ORDERS, [MOMENT, MOMENT], Free, TO_BOOL),
    row!(Sign, SUMS, [NUMBER, NUMBER], Free, TO_NUMBER),
    row!(Sign, TIMES, [NUMBER, NUMBER], Free, TO_NUMBER),
    row!(
        Sign,
        OVER,
        [NUMBER, NUMBER],
        ByLiteral,
        ResultType::Only(SqlType::Numeric)
    ),
    row!(
        Sign,
        &[("-", Op::Negate), ("+", Op::Same)],
        [NUMBER],
        Free,
        ResultType::First
    ),
    row!(
        Sign,
        SUMS,
        [NUMBER_KIND, NUMBER_KIND],
        OneMoving,
        TO_TNUMBER
    ),
    row!(Sign, TIMES, [NUMBER, TNUMBER], Free, TO_TNUMBER),
    row!(Sign, TIMES, [TNUMBER, NUMBER], Free, TO_TNUMBER),
    row!(Sign, TIMES, [TINT, TNUMBER], Free, TO_TNUMBER),
    row!(Sign, TIMES, [TFRAC, TINT], Free, TO_TNUMBER),
    row!(
        Sign,
        OVER,
        [TNUMBER, NUMBER],
        ByLiteral,
        ResultType::Only(SqlType::TFrac)
    ),
    row!(
        Sign,
        JOIN,
        [TEXT, TEXT],
        Free,
        ResultType::Only(SqlType::Text)
    ),
    row!(
        Sign,
        JOIN,
        [TEXT_KIND, TEXT_KIND],
        OneMoving,
        ResultType::Only(SqlType::TText)
    ),
    row!(
        Sign,
        &[("&", Op::LiftedAnd), ("|", Op::LiftedOr)],
        [BOOL_KIND, BOOL_KIND],
        OneMoving,
        TO_TBOOL
    ),
    row!(Sign, &[("~", Op::LiftedNot)], [TBOOL], Free, TO_TBOOL),
    row!(
        Sign,
        LIFTED_EQUALS,
        [BOOL_KIND, BOOL_KIND],
        OneMoving,
        TO_TBOOL
    ),
    row!(
        Sign,
        LIFTED_EQUALS,
        [NUMBER_KIND, NUMBER_KIND],
        OneMoving,
        TO_TBOOL
    ),
    row!(
        Sign,
        LIFTED_EQUALS,
        [TEXT_KIND, TEXT_KIND],
        OneMoving,
        TO_TBOOL
    ),
    row!(
        Sign,
        LIFTED_EQUALS,
        [POINT_KIND, POINT_KIND],
        OneMoving,
        TO_TBOOL
    ),
    row!(
        Sign,
        LIFTED_ORDERS,
        [NUMBER_KIND, NUMBER_KIND],
        OneMoving,
        TO_TBOOL
    ),
    row!(
        Sign,
        LIFTED_ORDERS,
        [TEXT_KIND, TEXT_KIND],
        OneMoving,
        TO_TBOOL
    ),
    row!(
        Sign,
        EVER_EQUALS,
        [BOOL_KIND, BOOL_KIND],
        OneMoving,
        TO_BOOL
    ),
    row!(
        Sign,
        EVER_EQUALS,
        [NUMBER_KIND, NUMBER_KIND],
        OneMoving,
        TO_BOOL
    ),
    row!(
        Sign,
        EVER_EQUALS,
        [TEXT_KIND, TEXT_KIND],
        OneMoving,
        TO_BOOL
    ),
    row!(
        Sign,
        EVER_EQUALS,
        [POINT_KIND, POINT_KIND],
        OneMoving,
        TO_BOOL
    ),
    row!(
        Sign,
        EVER_ORDERS,
        [NUMBER_KIND, NUMBER_KIND],
        OneMoving,
        TO_BOOL
    ),
    row!(
        Sign,
        EVER_ORDERS,
        [TEXT_KIND, TEXT_KIND],
        OneMoving,
        TO_BOOL
    ),
    row!(Sign, &[("&&", Op::Overlap)], [BOXED, BOXED], Free, TO_BOOL),
    row!(
        Call,
        &[("attime", Op::AtTime), ("minustime", Op::MinusTime)],
        [TEMPORAL, TIME],
        Free,
        ResultType::First
    ),
    row!(Call, AT_VALUES, [TBOOL, BOOL], Free, ResultType::First),
    row!(Call, AT_VALUES, [TINT, INT], Free, ResultType::First),
    row!(Call, AT_VALUES, [TFRAC, NUMBER], Free, ResultType::First),
    row!(Call, AT_VALUES, [TTEXT, TEXT], Free, ResultType::First),
    row!(Call, AT_VALUES, [TPOINT, POINT], Free, ResultType::First),
    row!(Call, VALUE_AT, [TBOOL, MOMENT], Free, TO_BOOL),
    row!(
        Call,
        VALUE_AT,
        [TINT, MOMENT],
        Free,
        ResultType::Only(SqlType::Int)
    ),
    row!(
        Call,
        VALUE_AT,
        [TFRAC, MOMENT],
        Free,
        ResultType::Only(SqlType::Numeric)
    ),
    row!(
        Call,
        VALUE_AT,
        [TTEXT, MOMENT],
        Free,
        ResultType::Only(SqlType::Text)
    ),
    row!(
        Call,
        VALUE_AT,
        [TPOINT, MOMENT],
        Free,
        ResultType::Only(SqlType::Point)
    ),
    row!(
        Call,
        &[("gettime", Op::GetTime)],
        [TEMPORAL],
        Free,
        ResultType::Only(SqlType::SpanSet)
    ),
    row!(
        Call,
        &[("whentrue", Op::WhenTrue)],
        [TBOOL],
        Free,
        ResultType::Only(SqlType::SpanSet)
    ),
    row!(
        Call,
        &[("getx", Op::GetX), ("gety", Op::GetY)],
        [TPOINT],
        Free,
        ResultType::Only(SqlType::TFrac)
    ),
    row!(
        Call,
        &[("stbox", Op::BoxOf)],
        [TPOINT],
        Free,
        ResultType::Only(SqlType::Box)
    ),
    row!(
        Call,
        &[("expandspace", Op::ExpandSpace)],
        [BOXED, NUMBER],
        Free,
        ResultType::Only(SqlType::Box)
    ),
    row!(
        Call,
        &[("atstbox", Op::AtStbox), ("minusstbox", Op::MinusStbox)],
        [TPOINT, BOX],
        Free,
        ResultType::First
    ),
    row!(
        Call,
        &[
            ("atgeometry", Op::AtGeometry),
            ("minusgeometry", Op::MinusGeometry)
        ],
        [TPOINT, POLYGON],
        Free,
        ResultType::First
    ),
    row!(
        Call,
        &[("eintersects", Op::EIntersects)],
        [TPOINT, POLYGON],
        Free,
        TO_BOOL
    ),
    row!(
        Call,
        &[("edwithin", Op::EDwithin)],
        [POINT_KIND, POINT_KIND, NUMBER],
        OneMoving,
        TO_BOOL
    ),
    row!(
        Call,
        &[("nearestapproachsquared", Op::NearestApproachSquared)],
        [POINT_KIND, POINT_KIND],
        OneMoving,
        ResultType::Only(SqlType::Numeric)
    ),
    row!(
        Call,
        &[("astext", Op::AsText)],
        [PRINTED],
        Free,
        ResultType::Only(SqlType::Text)
    ),
];
