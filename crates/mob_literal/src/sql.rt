//! Reads SQL values from their texts, and prints them.
ghost use Rattle.std.specs.Prelude.{◌≡◌, ◌≢◌, ◌++◌, Err, MatchResult, OnOk, OnErr, false, true, string_bytes};
ghost use Rattle.mob_ratio.specs.Order.{same};
ghost use Rattle.mob_span.specs.Flags.{same_bool};
ghost use Rattle.mob_slice.specs.CourseOf.{line_course, plane_course};
ghost use Rattle.mob_slice.specs.Sameness.{same_bytes};
ghost use Rattle.mob_numeral.specs.Numbers.{numbers, whole_numbers};
ghost use Rattle.mob_scalar.specs.Moments.{moments};
ghost use Rattle.mob_scalar.specs.Truth.{truths};
ghost use Rattle.mob_numeral.specs.declared.fault.ReadText.TheVariants.{NoMemory};
ghost use Rattle.mob_points.specs.Points.{points, point_value};
ghost use Rattle.mob_geotext.specs.Boxes.{boxes};
ghost use Rattle.mob_geotext.specs.Polygons.{polygons};
ghost use Rattle.mob_geotext.specs.Spans.{spans, span_sets};
ghost use Rattle.mob_literal.specs.Memory.{takes_memory};
ghost use Rattle.mob_literal.specs.Sound.{literals, steps};
ghost use Rattle.mob_numeral.specs.Fitting.{number_value};
ghost use Rattle.mob_written.specs.Values.{any_value, is_whole_number, truth_value, quoted_value};
ghost use Rattle.mob_literal.specs.SqlText.{SaysInForm, SaysAs, texts, value_text};

use crate::temporal::read_moving;
use mob_ast::SqlType;
use mob_frac::Frac;
use mob_geotext::{
    read_point, read_polygon, read_span, read_span_set, read_stbox, write_point, write_polygon,
    write_span, write_span_set, write_stbox,
};
use mob_list::text::Text;
use mob_scalar::{
    Epoch, ReadText, read_moment, read_number, read_truth, read_whole, write_moment, write_number,
    write_truth,
};
use mob_slice::{Line, PlaneLine, Steady};
use mob_value::{Boxed, Value};
use mob_written::printing::write_moving;
use mob_written::values::{Numbers, Points, Texts, Truths, WholeNumbers};
use std::alloc::{AllocError, Global};

fn read_bool(text: &str) -> Result<Value, ReadText>
    ensures reading { SaysInForm truths Value.Bool text.now result }
    ensures memory { result ≢ Err NoMemory }
{
    Ok(Value::Bool(read_truth(text)?))
}

fn read_int(text: &str) -> Result<Value, ReadText>
    ensures reading { SaysInForm whole_numbers Value.Number text.now result }
    ensures memory { result ≢ Err NoMemory }
{
    Ok(Value::Number(read_whole(text)?))
}

fn read_numeric(text: &str) -> Result<Value, ReadText>
    ensures reading { SaysInForm numbers Value.Number text.now result }
    ensures memory { result ≢ Err NoMemory }
{
    Ok(Value::Number(read_number(text)?))
}

fn read_text(alloc: Global, text: &str) -> Result<Value, ReadText>
    ensures reading { SaysInForm texts Value.Text text.now result }
{
    match String::from_str(alloc, text) {
        Ok(text) => Ok(Value::Text(Text::from_string(text))),
        Err(_) => Err(ReadText::NoMemory),
    }
}

fn read_timestamp(text: &str, epoch: &Epoch) -> Result<Value, ReadText>
    ensures reading { SaysInForm (moments epoch.now) Value.Moment text.now result }
    ensures memory { result ≢ Err NoMemory }
{
    Ok(Value::Moment(read_moment(text, epoch)?))
}

fn read_geometry(text: &str) -> Result<Value, ReadText>
    ensures reading { SaysInForm points Value.Point text.now result }
    ensures memory { result ≢ Err NoMemory }
{
    Ok(Value::Point(read_point(text)?))
}

fn read_area(alloc: Global, text: &str) -> Result<Value, ReadText>
    ensures reading { SaysInForm polygons Value.Polygon text.now result }
{
    Ok(Value::Polygon(read_polygon(alloc, text)?))
}

// A value in an allocation of its own.
fn boxed<T: Drop>(alloc: Global, value: T) -> Result<Boxed<T>, ReadText>
    ensures same { MatchResult result (λ b. b ≡ value) (λ e. e ≡ NoMemory) }
{
    match Boxed::new(alloc, value) {
        Ok(boxed) => Ok(boxed),
        Err(_) => Err(ReadText::NoMemory),
    }
}

fn read_tstzspan(alloc: Global, text: &str, epoch: &Epoch) -> Result<Value, ReadText>
    ensures reading { SaysInForm (spans epoch.now) Value.Span text.now result }
{
    Ok(Value::Span(boxed(alloc, read_span(text, epoch)?)?))
}

fn read_box(alloc: Global, text: &str, epoch: &Epoch) -> Result<Value, ReadText>
    ensures reading { SaysInForm (boxes epoch.now) Value.Box text.now result }
{
    Ok(Value::Box(boxed(alloc, read_stbox(text, epoch)?)?))
}

fn read_tstzspanset(alloc: Global, text: &str, epoch: &Epoch) -> Result<Value, ReadText>
    ensures reading { SaysInForm (span_sets epoch.now) Value.SpanSet text.now result }
{
    Ok(Value::SpanSet(read_span_set(alloc, text, epoch)?))
}

fn read_tbool(alloc: Global, text: &str, epoch: &Epoch) -> Result<Value, ReadText>
    ensures reading { SaysInForm (steps epoch.now truth_value any_value same_bool) Value.MovingBool text.now result }
{
    Ok(Value::MovingBool(read_moving::<Truths, Steady<bool>>(alloc, text, epoch)?))
}

fn read_tint(alloc: Global, text: &str, epoch: &Epoch) -> Result<Value, ReadText>
    ensures reading { SaysInForm (steps epoch.now number_value is_whole_number same) Value.MovingInt text.now result }
{
    Ok(Value::MovingInt(read_moving::<WholeNumbers, Steady<Frac>>(alloc, text, epoch)?))
}

fn read_tfrac(alloc: Global, text: &str, epoch: &Epoch) -> Result<Value, ReadText>
    ensures reading { SaysInForm (literals epoch.now false number_value any_value line_course) Value.MovingFrac text.now result }
{
    Ok(Value::MovingFrac(read_moving::<Numbers, Line>(alloc, text, epoch)?))
}

fn read_ttext(alloc: Global, text: &str, epoch: &Epoch) -> Result<Value, ReadText>
    ensures reading { SaysInForm (steps epoch.now quoted_value any_value same_bytes) Value.MovingText text.now result }
{
    Ok(Value::MovingText(read_moving::<Texts, Steady<Text>>(alloc, text, epoch)?))
}

fn read_tgeompoint(alloc: Global, text: &str, epoch: &Epoch) -> Result<Value, ReadText>
    ensures reading { SaysInForm (literals epoch.now true point_value any_value plane_course) Value.MovingPoint text.now result }
{
    Ok(Value::MovingPoint(read_moving::<Points, PlaneLine>(alloc, text, epoch)?))
}

/// Reads a value of this type from its text. Instants are in seconds since midnight UTC of the
/// epoch day.
///
/// The first fault in the order `NotText`, `Limit`, `TooLarge` and `Unsound`, or `NoMemory` if an
/// allocation fails. A text may have blanks at both ends, except that a value of type text keeps
/// all its characters. Only a text, a polygon, a span, a span set, a box and a value over time take
/// memory.
pub fn read_value(alloc: Global, ty: SqlType, text: &str, epoch: &Epoch) -> Result<Value, ReadText>
    ensures reading { SaysAs ty epoch.now text.now result }
    ensures memory { takes_memory ty ≡ false → result ≢ Err NoMemory }
{
    match ty {
        SqlType::Bool => read_bool(text),
        SqlType::Int => read_int(text),
        SqlType::Numeric => read_numeric(text),
        SqlType::Text => read_text(alloc, text),
        SqlType::Moment => read_timestamp(text, epoch),
        SqlType::Point => read_geometry(text),
        SqlType::Polygon => read_area(alloc, text),
        SqlType::Span => read_tstzspan(alloc, text, epoch),
        SqlType::SpanSet => read_tstzspanset(alloc, text, epoch),
        SqlType::Box => read_box(alloc, text, epoch),
        SqlType::TBool => read_tbool(alloc, text, epoch),
        SqlType::TInt => read_tint(alloc, text, epoch),
        SqlType::TFrac => read_tfrac(alloc, text, epoch),
        SqlType::TText => read_ttext(alloc, text, epoch),
        SqlType::TPoint => read_tgeompoint(alloc, text, epoch),
    }
}

/// Appends the printed text of a value other than NULL. An error means that an allocation failed;
/// `into` is then unchanged.
pub fn write_value(value: &Value, epoch: &Epoch, into: &mut String) -> Result<(), AllocError>
    requires there { value.now ≢ Value.Null }
    ensures written { OnOk result (string_bytes into.new ≡ string_bytes into.old ++ value_text epoch.now value.now) }
    ensures unchanged { OnErr result (string_bytes into.new ≡ string_bytes into.old) }
{
    match value {
        Value::Null => Ok(()),
        Value::Bool(truth) => write_truth(*truth, into),
        Value::Number(number) => write_number(number, into),
        Value::Text(text) => into.push_str(text.as_str()),
        Value::Moment(instant) => write_moment(instant, epoch, into),
        Value::Point(point) => write_point(point, into),
        Value::Polygon(polygon) => write_polygon(polygon, into),
        Value::Span(span) => write_span(span.get(), epoch, into),
        Value::SpanSet(set) => write_span_set(set, epoch, into),
        Value::Box(area) => write_stbox(area.get(), epoch, into),
        Value::MovingBool(moving) => write_moving(moving, epoch, into),
        Value::MovingInt(moving) => write_moving(moving, epoch, into),
        Value::MovingFrac(moving) => write_moving(moving, epoch, into),
        Value::MovingText(moving) => write_moving(moving, epoch, into),
        Value::MovingPoint(moving) => write_moving(moving, epoch, into),
    }
}
