//! Laws of the texts of spans and span sets. No code runs here.
ghost use Rattle.std.specs.Prelude.{◌≡◌, ◌≢◌, ◌≤◌, ℤ, List, [], length, true, Ok};
ghost use Rattle.mob_numeral.specs.Verdict.{HasOneReading, Lit};
ghost use Rattle.mob_span.specs.Span.{SpanOf, has_instant};
ghost use Rattle.mob_span.specs.Sets.{IsSpanSet};
ghost use Rattle.mob_geotext.specs.Spans.{spans, span_sets};
ghost use Rattle.mob_geotext.specs.SpanText.{span_text, span_set_text};
ghost use Rattle.mob_geotext.specs.Printable.{HasDatedEnds, HaveDatedEnds};

/// A text has at most one reading as a span, and at most one as a span set.
pub fn one_reading()
    ensures spans { (day : ℤ) → HasOneReading (spans day) }
    ensures span_sets { (day : ℤ) → HasOneReading (span_sets day) }
{}

/// A printed span whose ends are in the years 0001 to 9999 reads back as itself.
pub fn span_read_again()
    ensures again { (day : ℤ) (s : SpanOf) → has_instant s ≡ true → HasDatedEnds day s → Lit (spans day) (span_text day s) (Ok s) }
{}

/// A printed span set reads back as itself if it has a span and at most 100,000 ends, which are in
/// the years 0001 to 9999.
pub fn span_set_read_again()
    ensures again { (day : ℤ) (set : List SpanOf) → set ≢ [] → length set ≤ 50000 → IsSpanSet set → HaveDatedEnds day set → Lit (span_sets day) (span_set_text day set) (Ok set) }
{}
