//! Reads spans from their texts.
ghost use Rattle.std.specs.Prelude.{◌≡◌, ◌≢◌, Err};
ghost use Rattle.mob_language.specs.Readers.{all_of, within_blanks_at};
ghost use Rattle.mob_numeral.specs.declared.fault.ReadText.TheVariants.{NoMemory};
ghost use Rattle.mob_numeral.specs.Verdict.{Lit};
ghost use Rattle.mob_geotext.specs.Spans.{noted_span_at as noted_span_in, spans};

use crate::noted::{NotedSpan, has_ends, noted_span_at, span_of};
use mob_numeral::blanks;
use mob_scalar::{Epoch, ReadText};
use mob_span::Span;

/// Reads all of the bytes as a span with optional blanks at both ends.
fn noted_in_all(epoch: &Epoch, bytes: &[u8]) -> Option<NotedSpan>
    ensures value { result ≡ all_of (within_blanks_at (noted_span_in epoch.now)) bytes.now }
{
    let Some((noted, rest)) = noted_span_at(epoch, blanks(bytes).1) else {
        return None;
    };
    match blanks(rest).1 {
        [] => Some(noted),
        _ => None,
    }
}

/// Reads a span of time from its text, which has the form of MobilityDB. Instants are in seconds
/// since midnight UTC of the epoch day.
///
/// A span is `[` or `(`, two moments with a comma between them, and `]` or `)`. A square bracket
/// includes its end. Blanks may be beside each sign and at both ends. The faults, in this order:
/// `NotText` for any other text, `TooLarge` if an end has more than 62 bits, and `Unsound` if the
/// span has no instant. It takes no memory.
pub fn read_span(text: &str, epoch: &Epoch) -> Result<Span, ReadText>
    ensures reading { Lit (spans epoch.now) text.now result }
    ensures memory { result ≢ Err NoMemory }
{
    let noted = match noted_in_all(epoch, text.as_bytes()) {
        None => return Err(ReadText::NotText),
        Some(noted) => noted,
    };
    if !has_ends(&noted) {
        return Err(ReadText::TooLarge);
    }
    match span_of(noted) {
        Some(span) => Ok(span),
        None => Err(ReadText::Unsound),
    }
}
