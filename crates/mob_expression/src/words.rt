//! Words and numbers of a script: the types that words name, the type of a number, and whether it
//! is 0.
ghost use Rattle.std.specs.Prelude.{◌≡◌, ◌==◌, ◌||◌, map};
ghost use Rattle.std.specs.List.{list_all};
ghost use Rattle.std.specs.Char.{is_ascii_digit};
ghost use Rattle.mob_language.specs.Language.{is_blank, is_exponent_letter};
ghost use Rattle.mob_language.specs.NonZero.{has_figure, is_figure};
ghost use Rattle.mob_expression.specs.Words.{type_among, type_words, geometry_words, type_named, number_type, is_zero, skip_blanks, begins_with_word, skip_digits, after_srid, after_digits, is_polygon, geometry_type, literal_type};

use mob_ast::{SqlType, TypeWord};

static TYPE_WORDS: [(&'static str, SqlType); 16] = [
    ("bool", SqlType::Bool),
    ("boolean", SqlType::Bool),
    ("int", SqlType::Int),
    ("integer", SqlType::Int),
    ("numeric", SqlType::Numeric),
    ("text", SqlType::Text),
    ("timestamptz", SqlType::Moment),
    ("tstzspan", SqlType::Span),
    ("tstzspanset", SqlType::SpanSet),
    ("stbox", SqlType::Box),
    ("tbool", SqlType::TBool),
    ("tint", SqlType::TInt),
    ("tfrac", SqlType::TFrac),
    ("tfloat", SqlType::TFrac),
    ("ttext", SqlType::TText),
    ("tgeompoint", SqlType::TPoint),
];

static GEOMETRY_WORDS: [(&'static str, SqlType); 2] = [
    ("point", SqlType::Point),
    ("polygon", SqlType::Polygon),
];

// The type with this name in the list.
fn type_among(words: &[(&str, SqlType)], name: &str) -> Option<SqlType>
    ensures first { result ≡ type_among (map (λ w. (w.0.now, w.1)) words.now) name.now }
{
    for (word, ty) in words {
        if *word == name {
            return Some(*ty);
        }
    }
    None
}

fn type_words() -> &'static [(&'static str, SqlType)]
    ensures all { map (λ w. (w.0.now, w.1)) result.now ≡ type_words }
{
    &TYPE_WORDS
}

fn geometry_words() -> &'static [(&'static str, SqlType)]
    ensures all { map (λ w. (w.0.now, w.1)) result.now ≡ geometry_words }
{
    &GEOMETRY_WORDS
}

/// The type that these words name.
pub fn type_named(word: &TypeWord) -> Option<SqlType>
    ensures named { result ≡ type_named word.now.name.text word.now.inner }
{
    match &word.inner {
        None => type_among(type_words(), word.name.text.as_str()),
        Some(inner) => {
            if word.name.text.as_str() == "geometry" {
                type_among(geometry_words(), inner.text.as_str())
            } else {
                None
            }
        }
    }
}

/// The type of a number: int if it has only digits, else numeric.
pub(crate) fn number_type(text: &str) -> SqlType
    ensures by_digits { result ≡ number_type text.now }
{
    if has_digits_alone(text.as_bytes()) {
        SqlType::Int
    } else {
        SqlType::Numeric
    }
}

/// Whether all bytes are digits.
pub fn has_digits_alone(text: &[u8]) -> bool
    ensures digits { result ≡ list_all is_ascii_digit text.now }
{
    text.iter().all(|b| b.is_ascii_digit())
}

/// Whether a number is 0: it has no digit other than 0 before its exponent and its slash.
pub(crate) fn is_zero(text: &str) -> bool
    ensures zero { result ≡ is_zero text.now }
{
    !has_figure(text.as_bytes())
}

// Whether a byte ends the digits that decide whether a number is 0.
fn ends_figures(b: u8) -> bool
    ensures end { result ≡ (is_exponent_letter b || b == 47) }
{
    b == b'e' || b == b'E' || b == b'/'
}

// Whether a digit other than 0 comes before any letter of an exponent and any slash.
#[tactic(auto, using(crate::proofs::Figures::no_figure, crate::proofs::Figures::figure_first, crate::proofs::Figures::figure_later, crate::proofs::Figures::figures_end))]
fn has_figure(text: &[u8]) -> bool
    ensures figure { result ≡ has_figure text.now }
{
    let mut rest = text;
    'figures: while let Some((first, behind)) = rest.split_first() {
        if ends_figures(*first) {
            return false;
        }
        if is_figure(*first) {
            return true;
        }
        rest = behind;
    }
    false
}

// Whether a byte is a digit other than 0.
fn is_figure(b: u8) -> bool
    ensures figure { result ≡ is_figure b }
{
    b'1' <= b && b <= b'9'
}

fn is_blank(b: u8) -> bool
    ensures blank { result ≡ is_blank b }
{
    b == b' ' || b == b'\t' || b == b'\r' || b == b'\n'
}

// A loop, since a script may have any number of blanks, and recursion would take stack for each.
fn skip_blanks(text: &[u8]) -> &[u8]
    ensures behind_blanks { result.now ≡ skip_blanks text.now }
{
    let mut rest = text;
    'blanks: while let Some((first, behind)) = rest.split_first() {
        if !is_blank(*first) {
            return rest;
        }
        rest = behind;
    }
    rest
}

// Whether a text begins with this word, ignoring case.
fn begins_with_word(text: &[u8], word: &[u8]) -> bool
    ensures begins { result ≡ begins_with_word text.now word.now }
{
    let Some((small, word)) = word.split_first() else {
        return true;
    };
    let Some((letter, text)) = text.split_first() else {
        return false;
    };
    letter.to_ascii_lowercase() == *small && begins_with_word(text, word)
}

// A loop, for the same reason as in `skip_blanks`.
fn skip_digits(text: &[u8]) -> &[u8]
    ensures behind_digits { result.now ≡ skip_digits text.now }
{
    let mut rest = text;
    'digits: while let Some((first, behind)) = rest.split_first() {
        if !first.is_ascii_digit() {
            return rest;
        }
        rest = behind;
    }
    rest
}

// The text after at least one digit, `;` and the blanks around it, if `rest` begins with these;
// else the whole text.
fn after_digits<'a>(whole: &'a [u8], rest: &'a [u8]) -> &'a [u8]
    ensures behind_number { result.now ≡ after_digits whole.now rest.now }
{
    let Some((first, more)) = rest.split_first() else {
        return whole;
    };
    if !first.is_ascii_digit() {
        return whole;
    }
    match skip_blanks(skip_digits(more)) {
        [b';', rest @ ..] => skip_blanks(rest),
        _ => whole,
    }
}

// The text after `SRID=`, its number, `;` and the blanks around it, if it begins with these; else
// the whole text. Whether the SRID is valid is checked when the text is read.
fn after_srid(text: &[u8]) -> &[u8]
    ensures behind_srid { result.now ≡ after_srid text.now }
{
    if !begins_with_word(text, b"srid=") {
        return text;
    }
    after_digits(text, &text[5..])
}

// Whether a text of a geometry is that of a polygon.
fn is_polygon(text: &[u8]) -> bool
    ensures polygon { result ≡ is_polygon text.now }
{
    begins_with_word(after_srid(skip_blanks(text)), b"polygon")
}

fn geometry_type(text: &str) -> SqlType
    ensures by_word { result ≡ geometry_type text.now }
{
    if is_polygon(text.as_bytes()) {
        SqlType::Polygon
    } else {
        SqlType::Point
    }
}

/// The type of a typed string. For `geometry` without brackets the string decides.
pub fn literal_type(word: &TypeWord, text: &str) -> Option<SqlType>
    ensures named { result ≡ literal_type word.now.name.text word.now.inner text.now }
{
    match &word.inner {
        Some(_) => type_named(word),
        None => {
            if word.name.text.as_str() == "geometry" {
                Some(geometry_type(text))
            } else {
                type_named(word)
            }
        }
    }
}
