//! Prints spans and span sets.
ghost use Rattle.std.specs.Prelude.{◌≡◌, ◌++◌, map, cond, codes, OnOk, OnErr, string_bytes};
ghost use Rattle.mob_scalar.specs.Brackets.{with_commas};
ghost use Rattle.mob_geotext.specs.SpanText.{span_text, span_set_text};

use mob_scalar::{Epoch, write_moment};
use mob_span::{Span, SpanSet};
use std::alloc::AllocError;

fn push_opening(included: bool, into: &mut String) -> Result<(), AllocError>
    ensures written { OnOk result (string_bytes into.new ≡ string_bytes into.old ++ cond included (codes "[") (codes "(")) }
{
    if included {
        into.push_str("[")
    } else {
        into.push_str("(")
    }
}

fn push_closing(included: bool, into: &mut String) -> Result<(), AllocError>
    ensures written { OnOk result (string_bytes into.new ≡ string_bytes into.old ++ cond included (codes "]") (codes ")")) }
{
    if included {
        into.push_str("]")
    } else {
        into.push_str(")")
    }
}

fn push_span(span: &Span, epoch: &Epoch, into: &mut String) -> Result<(), AllocError>
    ensures written { OnOk result (string_bytes into.new ≡ string_bytes into.old ++ span_text epoch.now span.now) }
{
    push_opening(span.lower_inc(), into)?;
    write_moment(span.lower(), epoch, into)?;
    into.push_str(", ")?;
    write_moment(span.upper(), epoch, into)?;
    push_closing(span.upper_inc(), into)
}

/// Appends the spans, with commas between them.
fn push_spans(spans: &[Span], epoch: &Epoch, into: &mut String) -> Result<(), AllocError>
    ensures written { OnOk result (string_bytes into.new ≡ string_bytes into.old ++ with_commas (map (span_text epoch.now) spans.now)) }
{
    let [first, rest @ ..] = spans else {
        return Ok(());
    };
    push_span(first, epoch, into)?;
    for next in rest {
        into.push_str(", ")?;
        push_span(next, epoch, into)?;
    }
    Ok(())
}

fn push_span_set(spans: &[Span], epoch: &Epoch, into: &mut String) -> Result<(), AllocError>
    ensures written { OnOk result (string_bytes into.new ≡ string_bytes into.old ++ span_set_text epoch.now spans.now) }
{
    into.push_str("{")?;
    push_spans(spans, epoch, into)?;
    into.push_str("}")
}

/// Appends the text of a span: two moments between brackets; a square bracket includes its end. An
/// error means that an allocation failed; the text is then unchanged.
pub fn write_span(span: &Span, epoch: &Epoch, into: &mut String) -> Result<(), AllocError>
    ensures ok { OnOk result (string_bytes into.new ≡ string_bytes into.old ++ span_text epoch.now span.now) }
    ensures err { OnErr result (string_bytes into.new ≡ string_bytes into.old) }
{
    let mut text = String::new(*into.allocator());
    push_span(span, epoch, &mut text)?;
    into.push_str(text.as_str())
}

/// Appends the text of a span set: its spans in braces. An error means that an allocation failed;
/// the text is then unchanged.
pub fn write_span_set(set: &SpanSet, epoch: &Epoch, into: &mut String) -> Result<(), AllocError>
    ensures ok { OnOk result (string_bytes into.new ≡ string_bytes into.old ++ span_set_text epoch.now set.now) }
    ensures err { OnErr result (string_bytes into.new ≡ string_bytes into.old) }
{
    let mut text = String::new(*into.allocator());
    push_span_set(set.spans(), epoch, &mut text)?;
    into.push_str(text.as_str())
}
