//! Spans as read, before they are known to be spans.
ghost use Rattle.std.specs.Prelude.{◌≡◌, option_map};
ghost use Rattle.mob_geotext.specs.Spans.{noted_span_at as noted_span_in, has_ends as both_there, bounded as bounded_span, sound_span};

use mob_frac::Frac;
use mob_scalar::{Epoch, closing_at, moment_value_at, opening_at, spaced_at};
use mob_span::Span;

/// A span as read, before it is known that its ends fit and that it has an instant.
#[derive(Drop)]
pub struct NotedSpan {
    /// The lower end, in seconds since midnight UTC of the epoch day; `None` if it does not fit.
    pub lower: Option<Frac>,
    /// The upper end, likewise.
    pub upper: Option<Frac>,
    /// Whether the lower end is included.
    pub lower_inc: bool,
    /// Whether the upper end is included.
    pub upper_inc: bool,
}

/// Reads a span at the front, as written. Returns it and the rest of the text.
#[tactic(auto, unfolding(crate::specs::Spans::noted_span_at, mob_scalar::specs::Brackets::comma_at))]
pub fn noted_span_at<'a>(epoch: &Epoch, bytes: &'a [u8]) -> Option<(NotedSpan, &'a [u8])>
    ensures read { option_map (λ x. (x.0, x.1.now)) result ≡ noted_span_in epoch.now bytes.now }
{
    let (bracket, rest) = opening_at(bytes)?;
    let Some((lower, rest)) = moment_value_at(epoch, rest) else {
        return None;
    };
    let rest = spaced_at(b',', rest)?;
    let Some((upper, rest)) = moment_value_at(epoch, rest) else {
        return None;
    };
    let (close, rest) = closing_at(rest)?;
    let noted = NotedSpan {
        lower,
        upper,
        lower_inc: bracket == 91,
        upper_inc: close == 93,
    };
    Some((noted, rest))
}

/// Whether both ends fit.
pub fn has_ends(noted: &NotedSpan) -> bool
    ensures value { result ≡ both_there noted.now }
{
    noted.lower.is_some() && noted.upper.is_some()
}

/// The span with these ends; `None` if it has no instant.
fn bounded(lower: Frac, upper: Frac, lower_inc: bool, upper_inc: bool) -> Option<Span>
    ensures value { result ≡ bounded_span (record { lower = lower; upper = upper; lower_inc = lower_inc; upper_inc = upper_inc }) }
{
    Span::new(lower, upper, lower_inc, upper_inc)
}

/// The span; `None` if an end does not fit, or it has no instant.
pub fn span_of(noted: NotedSpan) -> Option<Span>
    ensures value { result ≡ sound_span noted }
{
    let NotedSpan {
        lower,
        upper,
        lower_inc,
        upper_inc,
    } = noted;
    let start = lower?;
    let end = upper?;
    bounded(start, end, lower_inc, upper_inc)
}
