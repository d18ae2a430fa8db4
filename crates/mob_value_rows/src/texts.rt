//! Texts of values, fields, moments, days and values of a ttext: how they are read and printed. The
//! epoch is 2000-01-01. Texts that a SELECT prints are in `checks/rows`; here are those that no
//! script can distinguish, such as the faults of refused texts.

use mob_ast::SqlType;
use mob_frac::{Frac, Overflow};
use mob_literal::{read_field, read_value, write_field, write_value};
use mob_scalar::{
    Epoch, ReadText, read_moment, read_number, text_value_at, write_moment, write_number,
};
use mob_value::Value;
use std::alloc::{AllocError, Global};

#[derive(Clone, Copy)]
enum Reading {
    // as a value of this type, printed
    Value(SqlType),
    // as a field of this type, printed again
    Field(SqlType),
    // as a moment, printed as its instant
    Instant,
    // as an instant, printed as its moment
    Moment,
    // as the day of an epoch, printed as its number
    Day,
    // a value of a ttext at the beginning; after a bar the rest
    TextAt,
}

// A text, and its printed value, or the name of its fault.
type Row = (Reading, &'static str, &'static str);

static ROWS: [Row; 140] = [
    (Reading::Value(SqlType::Numeric), "", "NotText"),
    (Reading::Value(SqlType::Numeric), ".", "NotText"),
    (Reading::Value(SqlType::Numeric), "1/0", "NotText"),
    (Reading::Value(SqlType::Numeric), "/2", "NotText"),
    (Reading::Value(SqlType::Numeric), "1e19", "NotText"),
    (Reading::Value(SqlType::Numeric), "1e", "NotText"),
    (Reading::Value(SqlType::Numeric), "1.5/2", "NotText"),
    (
        Reading::Value(SqlType::Numeric),
        "0000000000000000000000000000000000001",
        "NotText",
    ),
    (
        Reading::Value(SqlType::Numeric),
        "4611686018427387904",
        "TooLarge",
    ),
    (Reading::Value(SqlType::Numeric), "1e-18e", "NotText"),
    (
        Reading::Value(SqlType::Numeric),
        "99999999999999999999/0",
        "NotText",
    ),
    (
        Reading::Value(SqlType::Numeric),
        "1/4611686018427387904",
        "TooLarge",
    ),
    (Reading::Value(SqlType::Int), "1/2", "Unsound"),
    (Reading::Value(SqlType::Int), "1e-1", "Unsound"),
    (
        Reading::Value(SqlType::Int),
        "4611686018427387904.5",
        "TooLarge",
    ),
    (
        Reading::Value(SqlType::Int),
        "4611686018427387904/3.",
        "NotText",
    ),
    (Reading::Value(SqlType::Int), "", "NotText"),
    (
        Reading::Value(SqlType::Int),
        "4611686018427387904",
        "TooLarge",
    ),
    (
        Reading::Value(SqlType::Int),
        "4611686018427387904.5.",
        "NotText",
    ),
    (Reading::Value(SqlType::Bool), "", "NotText"),
    (Reading::Value(SqlType::Bool), "tr", "NotText"),
    (Reading::Value(SqlType::Bool), "truth", "NotText"),
    (Reading::Value(SqlType::Bool), "t t", "NotText"),
    (Reading::Value(SqlType::Bool), "1", "NotText"),
    (Reading::Value(SqlType::Bool), "falsey", "NotText"),
    (Reading::Value(SqlType::Bool), "yes", "NotText"),
    (Reading::Instant, " 2000-01-01  ", "0"),
    (Reading::Instant, "2000-02-29 00:00", "5097600"),
    (Reading::Instant, "2001-01-01 00:00:00.25+01", "126475201/4"),
    (Reading::Instant, "2000-01-01T00:01:00(1/3)Z", "181/3"),
    (Reading::Instant, "2000-01-01  23:59:59-15:59", "143939"),
    (Reading::Instant, "0001-01-01 00:00:00", "-63082281600"),
    (Reading::Instant, "9999-12-31t23:59:59z", "252455615999"),
    (Reading::Instant, "2001-02-29", "NotText"),
    (Reading::Instant, "1900-02-29", "NotText"),
    (Reading::Instant, "0000-12-31", "NotText"),
    (Reading::Instant, "10000-01-01", "NotText"),
    (Reading::Instant, "2000-1-01", "NotText"),
    (Reading::Instant, "2000-01-01 24:00", "NotText"),
    (Reading::Instant, "2000-01-01 00:60", "NotText"),
    (Reading::Instant, "2000-01-01 00:00:60", "NotText"),
    (Reading::Instant, "2000-01-01+01", "NotText"),
    (Reading::Instant, "2000-01-01 00:00+16", "NotText"),
    (Reading::Instant, "2000-01-01 00:00:00.", "NotText"),
    (Reading::Instant, "2000-01-01 00:00:00(3/3)", "NotText"),
    (Reading::Instant, "0001-01-01 00:00+01", "NotText"),
    (Reading::Instant, "9999-12-31 23:59:59-01", "NotText"),
    (
        Reading::Instant,
        "2000-01-01 00:00:01(1/4611686018427387903)",
        "TooLarge",
    ),
    (Reading::Value(SqlType::Moment), "1900-02-29", "NotText"),
    (
        Reading::Value(SqlType::Moment),
        "0001-01-01 00:00+01",
        "NotText",
    ),
    (Reading::Moment, "0", "2000-01-01 00:00:00+00"),
    (Reading::Moment, "31622400", "2001-01-01 00:00:00+00"),
    (Reading::Moment, "5101261", "2000-02-29 01:01:01+00"),
    (Reading::Moment, "1/4", "2000-01-01 00:00:00.25+00"),
    (Reading::Moment, "-1/2", "1999-12-31 23:59:59.5+00"),
    (
        Reading::Moment,
        "1/1000000",
        "2000-01-01 00:00:00.000001+00",
    ),
    (
        Reading::Moment,
        "1/10000000",
        "2000-01-01 00:00:00(1/10000000)+00",
    ),
    (Reading::Moment, "5/3", "2000-01-01 00:00:01(2/3)+00"),
    (Reading::Moment, "-63082281600", "0001-01-01 00:00:00+00"),
    (Reading::Moment, "-63082281601", "epoch+(-63082281601)"),
    (
        Reading::Moment,
        "504911231999/2",
        "9999-12-31 23:59:59.5+00",
    ),
    (Reading::Moment, "252455616000", "epoch+(252455616000)"),
    (Reading::Moment, "757366848001/3", "epoch+(757366848001/3)"),
    (Reading::Day, "1970-01-01", "0"),
    (Reading::Day, "2000-01-01", "10957"),
    (Reading::Day, "0001-01-01", "-719162"),
    (Reading::Day, " 2000-01-01", "NotText"),
    (Reading::Value(SqlType::Text), "", ""),
    (Reading::Value(SqlType::Text), "\\N a ", "\\N a "),
    (
        Reading::Value(SqlType::TInt),
        "[1@2001-01-01, 2@2001-01-02)",
        "Unsound",
    ),
    (Reading::Value(SqlType::TInt), "1/2@2001-01-01", "Unsound"),
    (
        Reading::Value(SqlType::TInt),
        "[1@2001-01-02, 4611686018427387904@2001-01-01]",
        "TooLarge",
    ),
    (
        Reading::Value(SqlType::TInt),
        "[4611686018427387904@2001-02-30]",
        "NotText",
    ),
    (Reading::Value(SqlType::TInt), "(1@2001-01-01]", "Unsound"),
    (
        Reading::Value(SqlType::TInt),
        "{2@2001-01-02, 1@2001-01-02}",
        "Unsound",
    ),
    (
        Reading::Value(SqlType::TInt),
        "{[1@2001-01-01], [2@2001-01-01]}",
        "Unsound",
    ),
    (Reading::Value(SqlType::TInt), "1.5@2001-01-01", "Unsound"),
    (
        Reading::Value(SqlType::TInt),
        "4611686018427387904@2001-01-01",
        "TooLarge",
    ),
    (
        Reading::Value(SqlType::TInt),
        "[4611686018427387904@2001-01-02, 1@2001-01-01]",
        "TooLarge",
    ),
    (
        Reading::Value(SqlType::TInt),
        "[4611686018427387904@2001-01-01",
        "NotText",
    ),
    (Reading::Value(SqlType::TInt), "{}", "NotText"),
    (Reading::Value(SqlType::TInt), "1@2001-02-29", "NotText"),
    (Reading::Value(SqlType::TText), "a", "NotText"),
    (Reading::Field(SqlType::Text), "\\N", "\\N"),
    (Reading::Field(SqlType::Text), "", ""),
    (Reading::Field(SqlType::Text), "\\a", "\\\\a"),
    (Reading::Field(SqlType::Text), "\\\\N", "\\\\N"),
    (Reading::Field(SqlType::Text), "\\", "\\\\"),
    (Reading::Field(SqlType::Text), "\\\\\\", "\\\\\\"),
    (Reading::Field(SqlType::Text), " \\N", " \\N"),
    (Reading::Field(SqlType::Int), "\\N", "\\N"),
    (Reading::Field(SqlType::Int), "", "\\N"),
    (Reading::Field(SqlType::Int), " ", "NotText"),
    (Reading::Field(SqlType::Int), " 5 ", "5"),
    (Reading::Field(SqlType::Bool), "\\\\N", "NotText"),
    (
        Reading::Field(SqlType::TInt),
        "1@2001-01-01",
        "1@2001-01-01 00:00:00+00",
    ),
    (Reading::TextAt, "ab c @2000-01-01", "ab c| @2000-01-01"),
    (Reading::TextAt, "a\\;'b@", "a\\;'b|@"),
    (Reading::TextAt, "\"a \\\"b\\\\\"@", "a \"b\\|@"),
    (Reading::TextAt, "\"\" ,", "| ,"),
    (Reading::TextAt, "Żagiel ]", "Żagiel| ]"),
    (Reading::TextAt, "", "none"),
    (Reading::TextAt, " a", "none"),
    (Reading::TextAt, "@", "none"),
    (Reading::TextAt, "\"a", "none"),
    (Reading::TextAt, "\"a\\b\"", "none"),
    (Reading::TextAt, "(a", "none"),
    (Reading::Value(SqlType::Point), "POINT(1)", "NotText"),
    (Reading::Value(SqlType::Point), "POINT(1 2 3)", "NotText"),
    (
        Reading::Value(SqlType::Point),
        "POINT(1 2)@2001-01-01",
        "NotText",
    ),
    (
        Reading::Value(SqlType::Point),
        "POLYGON((0 0,1 0,0 1,0 0))",
        "NotText",
    ),
    (
        Reading::Value(SqlType::Point),
        "SRID=4326;POINT(1 2)",
        "NotText",
    ),
    (
        Reading::Value(SqlType::Point),
        "POINT(1 4611686018427387904)",
        "TooLarge",
    ),
    (
        Reading::Value(SqlType::Span),
        "(2001-01-01, 2001-01-01]",
        "Unsound",
    ),
    (
        Reading::Value(SqlType::Span),
        "[2001-01-02, 2001-01-01]",
        "Unsound",
    ),
    (Reading::Value(SqlType::Span), "[2001-01-01]", "NotText"),
    (
        Reading::Value(SqlType::Span),
        "{[2001-01-01, 2001-01-02]}",
        "NotText",
    ),
    (
        Reading::Value(SqlType::Span),
        "[2001-01-02, 2001-01-01 00:00:00.000000000000000001]",
        "TooLarge",
    ),
    (Reading::Value(SqlType::SpanSet), "{}", "NotText"),
    (
        Reading::Value(SqlType::SpanSet),
        "[2001-01-01, 2001-01-02]",
        "NotText",
    ),
    (
        Reading::Value(SqlType::SpanSet),
        "{[2001-01-01, 2001-01-02], (2001-01-01, 2001-01-01]}",
        "Unsound",
    ),
    (
        Reading::Value(SqlType::SpanSet),
        "{(2001-01-01, 2001-01-01], [2001-01-01 00:00:00.000000000000000001, 2001-01-02]}",
        "TooLarge",
    ),
    (
        Reading::Value(SqlType::TFrac),
        "Interp=Step;[1@2001-01-01, 2@2001-01-02)",
        "Unsound",
    ),
    (
        Reading::Value(SqlType::TFrac),
        "Interp=Linear;1@2001-01-01",
        "NotText",
    ),
    (
        Reading::Value(SqlType::TFrac),
        "SRID=0;1@2001-01-01",
        "NotText",
    ),
    (
        Reading::Value(SqlType::TFrac),
        "[1@2001-01-02, 4611686018427387904@2001-01-01]",
        "TooLarge",
    ),
    (
        Reading::Value(SqlType::TFrac),
        "[1@2001-01-02, 2@2001-01-01]",
        "Unsound",
    ),
    (Reading::Value(SqlType::TFrac), "1", "NotText"),
    (
        Reading::Value(SqlType::TInt),
        "Interp=Step;1@2001-01-01",
        "NotText",
    ),
    (
        Reading::Value(SqlType::TPoint),
        "[POINT(0 0)@2001-01-01, Point(1 2)@2001-01-02, POINT(2 4)@2001-01-03]",
        "[POINT(0 0)@2001-01-01 00:00:00+00, POINT(2 4)@2001-01-03 00:00:00+00]",
    ),
    (
        Reading::Value(SqlType::TPoint),
        "SRID=0;SRID=0;[POINT(1 2)@2001-01-01]",
        "NotText",
    ),
    (
        Reading::Value(SqlType::TPoint),
        "SRID=4326;POINT(1 2)@2001-01-01",
        "NotText",
    ),
    (
        Reading::Value(SqlType::TPoint),
        "POINT(1)@2001-01-01",
        "NotText",
    ),
    (Reading::Value(SqlType::TPoint), "POINT(1 2)", "NotText"),
    (
        Reading::Value(SqlType::TPoint),
        "{POINT(4611686018427387904 0)@2001-01-02, POINT(1 2)@2001-01-01}",
        "TooLarge",
    ),
    (
        Reading::Value(SqlType::TPoint),
        "{POINT(0 0)@2001-01-02, POINT(1 2)@2001-01-01}",
        "Unsound",
    ),
    (Reading::Field(SqlType::Point), "", "\\N"),
    (Reading::Field(SqlType::TPoint), "\\N", "\\N"),
    (Reading::Field(SqlType::SpanSet), " ", "NotText"),
    (
        Reading::Field(SqlType::TFrac),
        " 1@2001-01-01 ",
        "1@2001-01-01 00:00:00+00",
    ),
];

// The name of a fault.
fn name_of(fault: &ReadText) -> &'static str {
    match fault {
        ReadText::NotText => "NotText",
        ReadText::Limit => "Limit",
        ReadText::TooLarge => "TooLarge",
        ReadText::Unsound => "Unsound",
        ReadText::NoMemory => "NoMemory",
    }
}

fn push_value(alloc: Global, ty: SqlType, text: &str, into: &mut String) -> Result<(), AllocError> {
    let epoch = Epoch::standard();
    match &read_value(alloc, ty, text, &epoch) {
        Ok(Value::Null) => into.push_str("NULL"),
        Ok(value) => write_value(value, &epoch, into),
        Err(fault) => into.push_str(name_of(fault)),
    }
}

fn push_field(
    alloc: Global,
    ty: SqlType,
    field: &str,
    into: &mut String,
) -> Result<(), AllocError> {
    let epoch = Epoch::standard();
    match &read_field(alloc, ty, field, &epoch) {
        Ok(value) => write_field(value, &epoch, into),
        Err(fault) => into.push_str(name_of(fault)),
    }
}

fn push_instant(text: &str, into: &mut String) -> Result<(), AllocError> {
    match read_moment(text, &Epoch::standard()) {
        Ok(instant) => write_number(&instant, into),
        Err(fault) => into.push_str(name_of(&fault)),
    }
}

fn push_moment(text: &str, into: &mut String) -> Result<(), AllocError> {
    match read_number(text) {
        Ok(instant) => write_moment(&instant, &Epoch::standard(), into),
        Err(fault) => into.push_str(name_of(&fault)),
    }
}

fn push_whole(number: i64, into: &mut String) -> Result<(), AllocError> {
    match Frac::new(number, 1) {
        Ok(number) => write_number(&number, into),
        Err(Overflow) => into.push_str("Overflow"),
    }
}

fn push_day(text: &str, into: &mut String) -> Result<(), AllocError> {
    match Epoch::read(text) {
        Ok(epoch) => push_whole(epoch.day(), into),
        Err(fault) => into.push_str(name_of(&fault)),
    }
}

// The last bytes of a text, as many as the rest has.
fn end_of<'a>(text: &'a str, rest: &[u8]) -> &'a str {
    let from = text.len().saturating_sub(rest.len());
    text.get(from..).unwrap_or("")
}

fn push_text_at(alloc: Global, text: &str, into: &mut String) -> Result<(), AllocError> {
    match text_value_at(alloc, text.as_bytes())? {
        Some((value, rest)) => {
            into.push_str(value.as_str())?;
            into.push('|')?;
            into.push_str(end_of(text, rest))
        }
        None => into.push_str("none"),
    }
}

fn push(alloc: Global, reading: Reading, text: &str, into: &mut String) -> Result<(), AllocError> {
    match reading {
        Reading::Value(ty) => push_value(alloc, ty, text, into),
        Reading::Field(ty) => push_field(alloc, ty, text, into),
        Reading::Instant => push_instant(text, into),
        Reading::Moment => push_moment(text, into),
        Reading::Day => push_day(text, into),
        Reading::TextAt => push_text_at(alloc, text, into),
    }
}

// Whether exactly this is appended to the text.
fn is_said(alloc: Global, row: &Row) -> bool {
    let (reading, text, wanted) = *row;
    let mut into = String::new(alloc);
    into.push('=').is_ok()
        && push(alloc, reading, text, &mut into).is_ok()
        && into.as_str().strip_prefix('=') == Some(wanted)
}

#[test]
fn texts_are_read_and_printed(rt: HostRuntime) {
    for row in &ROWS {
        assert!(rt; is_said(rt.alloc(), row), "{}", row.1);
    }
}
