//! Tests of look-ups in the table of operators.

use mob_ast::{Cmp, SqlType};
use mob_operators::{
    AggKind, Op, Spelling, aggregate_row, is_aggregate, is_function, is_irrational, operator_for,
};

type Expected = (
    Spelling,
    &'static str,
    &'static [SqlType],
    bool,
    Option<(Op, SqlType)>,
);

// Each operator once, for types that it takes.
static TAKEN: [Expected; 46] = [
    (
        Spelling::Word,
        "not",
        &[SqlType::Bool],
        false,
        Some((Op::Not, SqlType::Bool)),
    ),
    (
        Spelling::Word,
        "and",
        &[SqlType::Bool, SqlType::Bool],
        false,
        Some((Op::And, SqlType::Bool)),
    ),
    (
        Spelling::Word,
        "or",
        &[SqlType::Bool, SqlType::Bool],
        false,
        Some((Op::Or, SqlType::Bool)),
    ),
    (
        Spelling::Word,
        "is null",
        &[SqlType::Polygon],
        false,
        Some((Op::IsNull, SqlType::Bool)),
    ),
    (
        Spelling::Word,
        "is not null",
        &[SqlType::Text],
        false,
        Some((Op::IsNotNull, SqlType::Bool)),
    ),
    (
        Spelling::Sign,
        "=",
        &[SqlType::Box, SqlType::Box],
        false,
        Some((Op::Test(Cmp::Eq), SqlType::Bool)),
    ),
    (
        Spelling::Sign,
        "<>",
        &[SqlType::Int, SqlType::Numeric],
        false,
        Some((Op::Test(Cmp::Ne), SqlType::Bool)),
    ),
    (
        Spelling::Sign,
        "=",
        &[SqlType::TInt, SqlType::TFrac],
        false,
        Some((Op::Test(Cmp::Eq), SqlType::Bool)),
    ),
    (
        Spelling::Sign,
        "<",
        &[SqlType::Numeric, SqlType::Int],
        false,
        Some((Op::Test(Cmp::Lt), SqlType::Bool)),
    ),
    (
        Spelling::Sign,
        "<=",
        &[SqlType::Text, SqlType::Text],
        false,
        Some((Op::Test(Cmp::Le), SqlType::Bool)),
    ),
    (
        Spelling::Sign,
        ">",
        &[SqlType::Moment, SqlType::Moment],
        false,
        Some((Op::Test(Cmp::Gt), SqlType::Bool)),
    ),
    (
        Spelling::Sign,
        "+",
        &[SqlType::Int, SqlType::Int],
        false,
        Some((Op::Add, SqlType::Int)),
    ),
    (
        Spelling::Sign,
        "-",
        &[SqlType::Int, SqlType::Numeric],
        false,
        Some((Op::Subtract, SqlType::Numeric)),
    ),
    (
        Spelling::Sign,
        "*",
        &[SqlType::Int, SqlType::Int],
        false,
        Some((Op::Multiply, SqlType::Int)),
    ),
    (
        Spelling::Sign,
        "/",
        &[SqlType::Int, SqlType::Int],
        true,
        Some((Op::Divide, SqlType::Numeric)),
    ),
    (
        Spelling::Sign,
        "-",
        &[SqlType::Int],
        false,
        Some((Op::Negate, SqlType::Int)),
    ),
    (
        Spelling::Sign,
        "+",
        &[SqlType::Numeric],
        false,
        Some((Op::Same, SqlType::Numeric)),
    ),
    (
        Spelling::Sign,
        "+",
        &[SqlType::Int, SqlType::TInt],
        false,
        Some((Op::Add, SqlType::TInt)),
    ),
    (
        Spelling::Sign,
        "-",
        &[SqlType::TFrac, SqlType::TFrac],
        false,
        Some((Op::Subtract, SqlType::TFrac)),
    ),
    (
        Spelling::Sign,
        "*",
        &[SqlType::TInt, SqlType::TFrac],
        false,
        Some((Op::Multiply, SqlType::TFrac)),
    ),
    (
        Spelling::Sign,
        "*",
        &[SqlType::TInt, SqlType::Int],
        false,
        Some((Op::Multiply, SqlType::TInt)),
    ),
    (
        Spelling::Sign,
        "/",
        &[SqlType::TInt, SqlType::Int],
        true,
        Some((Op::Divide, SqlType::TFrac)),
    ),
    (
        Spelling::Sign,
        "||",
        &[SqlType::Text, SqlType::Text],
        false,
        Some((Op::Join, SqlType::Text)),
    ),
    (
        Spelling::Sign,
        "||",
        &[SqlType::Text, SqlType::TText],
        false,
        Some((Op::Join, SqlType::TText)),
    ),
    (
        Spelling::Sign,
        "&",
        &[SqlType::TBool, SqlType::Bool],
        false,
        Some((Op::LiftedAnd, SqlType::TBool)),
    ),
    (
        Spelling::Sign,
        "~",
        &[SqlType::TBool],
        false,
        Some((Op::LiftedNot, SqlType::TBool)),
    ),
    (
        Spelling::Sign,
        "#=",
        &[SqlType::Point, SqlType::TPoint],
        false,
        Some((Op::Lifted(Cmp::Eq), SqlType::TBool)),
    ),
    (
        Spelling::Sign,
        "#<",
        &[SqlType::TInt, SqlType::Numeric],
        false,
        Some((Op::Lifted(Cmp::Lt), SqlType::TBool)),
    ),
    (
        Spelling::Sign,
        "?<>",
        &[SqlType::TBool, SqlType::TBool],
        false,
        Some((Op::Ever(Cmp::Ne), SqlType::Bool)),
    ),
    (
        Spelling::Sign,
        "%>=",
        &[SqlType::TText, SqlType::Text],
        false,
        Some((Op::Always(Cmp::Ge), SqlType::Bool)),
    ),
    (
        Spelling::Sign,
        "&&",
        &[SqlType::Box, SqlType::TPoint],
        false,
        Some((Op::Overlap, SqlType::Bool)),
    ),
    (
        Spelling::Call,
        "attime",
        &[SqlType::TText, SqlType::SpanSet],
        false,
        Some((Op::AtTime, SqlType::TText)),
    ),
    (
        Spelling::Call,
        "minusvalues",
        &[SqlType::TFrac, SqlType::Int],
        false,
        Some((Op::MinusValues, SqlType::TFrac)),
    ),
    (
        Spelling::Call,
        "valueattimestamp",
        &[SqlType::TPoint, SqlType::Moment],
        false,
        Some((Op::ValueAtTimestamp, SqlType::Point)),
    ),
    (
        Spelling::Call,
        "gettime",
        &[SqlType::TInt],
        false,
        Some((Op::GetTime, SqlType::SpanSet)),
    ),
    (
        Spelling::Call,
        "whentrue",
        &[SqlType::TBool],
        false,
        Some((Op::WhenTrue, SqlType::SpanSet)),
    ),
    (
        Spelling::Call,
        "gety",
        &[SqlType::TPoint],
        false,
        Some((Op::GetY, SqlType::TFrac)),
    ),
    (
        Spelling::Call,
        "stbox",
        &[SqlType::TPoint],
        false,
        Some((Op::BoxOf, SqlType::Box)),
    ),
    (
        Spelling::Call,
        "expandspace",
        &[SqlType::Box, SqlType::Int],
        false,
        Some((Op::ExpandSpace, SqlType::Box)),
    ),
    (
        Spelling::Call,
        "atstbox",
        &[SqlType::TPoint, SqlType::Box],
        false,
        Some((Op::AtStbox, SqlType::TPoint)),
    ),
    (
        Spelling::Call,
        "minusgeometry",
        &[SqlType::TPoint, SqlType::Polygon],
        false,
        Some((Op::MinusGeometry, SqlType::TPoint)),
    ),
    (
        Spelling::Call,
        "eintersects",
        &[SqlType::TPoint, SqlType::Polygon],
        false,
        Some((Op::EIntersects, SqlType::Bool)),
    ),
    (
        Spelling::Call,
        "edwithin",
        &[SqlType::Point, SqlType::TPoint, SqlType::Int],
        false,
        Some((Op::EDwithin, SqlType::Bool)),
    ),
    (
        Spelling::Call,
        "nearestapproachsquared",
        &[SqlType::TPoint, SqlType::TPoint],
        false,
        Some((Op::NearestApproachSquared, SqlType::Numeric)),
    ),
    (
        Spelling::Call,
        "astext",
        &[SqlType::Span],
        false,
        Some((Op::AsText, SqlType::Text)),
    ),
    (
        Spelling::Sign,
        "|",
        &[SqlType::Bool, SqlType::TBool],
        false,
        Some((Op::LiftedOr, SqlType::TBool)),
    ),
];

// Each operator once, for types that it does not take.
static REFUSED: [Expected; 34] = [
    (Spelling::Word, "not", &[SqlType::TBool], false, None),
    (
        Spelling::Word,
        "and",
        &[SqlType::Bool, SqlType::Int],
        false,
        None,
    ),
    (Spelling::Word, "is null", &[], false, None),
    (
        Spelling::Sign,
        "=",
        &[SqlType::Polygon, SqlType::Polygon],
        false,
        None,
    ),
    (
        Spelling::Sign,
        "<>",
        &[SqlType::Int, SqlType::TInt],
        false,
        None,
    ),
    (
        Spelling::Sign,
        "<",
        &[SqlType::Bool, SqlType::Bool],
        false,
        None,
    ),
    (
        Spelling::Sign,
        ">=",
        &[SqlType::Text, SqlType::Moment],
        false,
        None,
    ),
    (
        Spelling::Sign,
        "+",
        &[SqlType::Int, SqlType::Text],
        false,
        None,
    ),
    (
        Spelling::Sign,
        "/",
        &[SqlType::Int, SqlType::Int],
        false,
        None,
    ),
    (Spelling::Sign, "-", &[SqlType::TInt], false, None),
    (
        Spelling::Sign,
        "*",
        &[SqlType::TFrac, SqlType::TFrac],
        false,
        None,
    ),
    (
        Spelling::Sign,
        "/",
        &[SqlType::TInt, SqlType::TInt],
        true,
        None,
    ),
    (
        Spelling::Sign,
        "||",
        &[SqlType::Text, SqlType::Int],
        false,
        None,
    ),
    (
        Spelling::Sign,
        "&",
        &[SqlType::Bool, SqlType::Bool],
        false,
        None,
    ),
    (Spelling::Sign, "~", &[SqlType::Bool], false, None),
    (
        Spelling::Sign,
        "#=",
        &[SqlType::Point, SqlType::Point],
        false,
        None,
    ),
    (
        Spelling::Sign,
        "#<",
        &[SqlType::TPoint, SqlType::TPoint],
        false,
        None,
    ),
    (
        Spelling::Sign,
        "?=",
        &[SqlType::TInt, SqlType::TText],
        false,
        None,
    ),
    (
        Spelling::Sign,
        "%<",
        &[SqlType::TBool, SqlType::Bool],
        false,
        None,
    ),
    (
        Spelling::Sign,
        "&&",
        &[SqlType::Box, SqlType::Point],
        false,
        None,
    ),
    (
        Spelling::Call,
        "attime",
        &[SqlType::Span, SqlType::Span],
        false,
        None,
    ),
    (
        Spelling::Call,
        "atvalues",
        &[SqlType::TInt, SqlType::Numeric],
        false,
        None,
    ),
    (
        Spelling::Call,
        "valueattimestamp",
        &[SqlType::TInt, SqlType::Span],
        false,
        None,
    ),
    (Spelling::Call, "gettime", &[SqlType::Box], false, None),
    (Spelling::Call, "whentrue", &[SqlType::Bool], false, None),
    (Spelling::Call, "getx", &[SqlType::Point], false, None),
    (Spelling::Call, "stbox", &[SqlType::Box], false, None),
    (
        Spelling::Call,
        "expandspace",
        &[SqlType::Polygon, SqlType::Int],
        false,
        None,
    ),
    (
        Spelling::Call,
        "minusstbox",
        &[SqlType::TPoint, SqlType::Polygon],
        false,
        None,
    ),
    (
        Spelling::Call,
        "atgeometry",
        &[SqlType::TPoint, SqlType::Point],
        false,
        None,
    ),
    (
        Spelling::Call,
        "eintersects",
        &[SqlType::TPoint, SqlType::TPoint],
        false,
        None,
    ),
    (
        Spelling::Call,
        "edwithin",
        &[SqlType::Point, SqlType::Point, SqlType::Int],
        false,
        None,
    ),
    (
        Spelling::Call,
        "nearestapproachsquared",
        &[SqlType::Point, SqlType::Point],
        false,
        None,
    ),
    (Spelling::Call, "astext", &[SqlType::Bool], false, None),
];

#[test]
fn each_operator_takes_its_types(rt: HostRuntime) {
    for (form, name, types, by_literal, wanted) in &TAKEN {
        assert!(rt;
            operator_for(*form, name, types, *by_literal) == *wanted,
            "{name}"
        );
    }
}

#[test]
fn no_operator_takes_other_types(rt: HostRuntime) {
    for (form, name, types, by_literal, wanted) in &REFUSED {
        assert!(rt;
            operator_for(*form, name, types, *by_literal) == *wanted,
            "{name}"
        );
    }
}

#[test]
fn functions_are_known(rt: HostRuntime) {
    assert!(rt; is_function("edwithin") && !is_function("tdwithin"));
    assert!(rt; is_irrational(Spelling::Call, "tdwithin") && is_irrational(Spelling::Sign, "<->"));
}

// Each aggregate, for a type that it takes and for one that it does not take.
static AGGREGATES: [(&str, SqlType, Option<(AggKind, SqlType)>); 17] = [
    (
        "count",
        SqlType::Polygon,
        Some((AggKind::Count, SqlType::Int)),
    ),
    ("sum", SqlType::Int, Some((AggKind::Sum, SqlType::Int))),
    (
        "sum",
        SqlType::Numeric,
        Some((AggKind::Sum, SqlType::Numeric)),
    ),
    ("sum", SqlType::TInt, None),
    ("sum", SqlType::Text, None),
    (
        "tcount",
        SqlType::TPoint,
        Some((AggKind::TCount, SqlType::TInt)),
    ),
    (
        "tcount",
        SqlType::TText,
        Some((AggKind::TCount, SqlType::TInt)),
    ),
    ("tcount", SqlType::SpanSet, None),
    ("tsum", SqlType::TInt, Some((AggKind::TSum, SqlType::TInt))),
    (
        "tsum",
        SqlType::TFrac,
        Some((AggKind::TSum, SqlType::TFrac)),
    ),
    ("tsum", SqlType::TPoint, None),
    (
        "tand",
        SqlType::TBool,
        Some((AggKind::TAnd, SqlType::TBool)),
    ),
    ("tand", SqlType::Bool, None),
    ("tor", SqlType::TBool, Some((AggKind::TOr, SqlType::TBool))),
    ("tor", SqlType::TInt, None),
    ("astext", SqlType::TInt, None),
    ("COUNT", SqlType::Int, None),
];

#[test]
fn each_aggregate_is_looked_up(rt: HostRuntime) {
    for (name, ty, wanted) in &AGGREGATES {
        assert!(rt; aggregate_row(name, *ty) == *wanted, "{name}");
    }
}

#[test]
fn aggregates_are_no_functions(rt: HostRuntime) {
    assert!(rt; is_aggregate("tcount") && !is_aggregate("astext"));
    assert!(rt; !is_function("count") && !is_function("sum"));
}
