//! Measures the gap, word, number, string or sign at the front of a text. Lengths are in bytes.
ghost use Rattle.std.specs.Prelude.{◌≡◌, ◌<◌, ◌≤◌, ◌+◌, ◌^◌, length, map, IfSome};
ghost use Rattle.mob_language.specs.Language.{is_blank, is_digit};
ghost use Rattle.mob_chars.specs.Scan.{is_letter, begins_number, word_length, digits_length, mantissa_length, with_digits, exponent_length, number_length, quoted_length, comment_length, gap_length};
ghost use Rattle.mob_chars.specs.Signs.{first_sign, sign_length};

/// Whether a byte is a blank: a space, a tab, a carriage return or a line feed.
pub fn is_blank(byte: u8) -> bool
    ensures blank { result ≡ is_blank byte }
{
    matches!(byte, b' ' | b'\t' | b'\r' | b'\n')
}

/// Whether a byte is a digit.
pub fn is_digit(byte: u8) -> bool
    ensures digit { result ≡ is_digit byte }
{
    byte.is_ascii_digit()
}

/// Whether a byte can begin a word: a letter from a to z, in either case, or `_`.
pub fn is_letter(byte: u8) -> bool
    ensures letter { result ≡ is_letter byte }
{
    matches!(byte, b'a'..=b'z' | b'A'..=b'Z' | b'_')
}

/// The number of letters, digits and `_` at the front.
pub fn word_length(text: &[u8]) -> usize
    ensures value { result ≡ word_length text.now }
{
    text.iter()
        .take_while(|b| is_letter(**b) || is_digit(**b))
        .count()
}

/// The number of digits at the front.
pub fn digits_length(text: &[u8]) -> usize
    ensures value { result ≡ digits_length text.now }
{
    text.iter().take_while(|b| is_digit(**b)).count()
}

/// Whether a number is at the front: a digit, or a point and a digit.
pub fn begins_number(text: &[u8]) -> bool
    ensures begins { result ≡ begins_number text.now }
{
    match text {
        [b'.', second, ..] => is_digit(*second),
        [first, ..] => is_digit(*first),
        [] => false,
    }
}

/// The length of the digits at the front, with at most one point among them.
pub fn mantissa_length(text: &[u8]) -> usize
    ensures value { result ≡ mantissa_length text.now }
    ensures within { result ≤ length text.now }
{
    let whole = digits_length(text);
    match &text[whole..] {
        [b'.', after @ ..] => whole + 1 + digits_length(after),
        _ => whole,
    }
}

/// The length of the exponent at the front: `e` or `E`, an optional sign and at least one digit; 0
/// if there is none.
pub fn exponent_length(text: &[u8]) -> usize
    ensures value { result ≡ exponent_length text.now }
    ensures within { result ≤ length text.now }
{
    match text {
        [b'e' | b'E', b'+' | b'-', after @ ..] => with_digits(2, digits_length(after)),
        [b'e' | b'E', after @ ..] => with_digits(1, digits_length(after)),
        _ => 0,
    }
}

// The length of a mark and the digits after it, if there is a digit; else 0.
fn with_digits(mark: usize, digits: usize) -> usize
    requires fits { mark + digits < 2 ^ 64 }
    ensures value { result ≡ with_digits mark digits }
{
    if digits == 0 { 0 } else { mark + digits }
}

/// The length of the number at the front.
pub fn number_length(text: &[u8]) -> usize
    ensures value { result ≡ number_length text.now }
    ensures within { result ≤ length text.now }
{
    let mantissa = mantissa_length(text);
    mantissa + exponent_length(&text[mantissa..])
}

/// The length of a string from after its opening quote up to and including its closing quote;
/// `None` if it is not closed.
pub fn quoted_length(text: &[u8]) -> Option<usize>
    ensures value { result ≡ quoted_length text.now }
    ensures within { IfSome result (λ n. (0 < n) × (n ≤ length text.now)) }
{
    let mut at = 0;
    while at < text.len() {
        if text[at] != b'\'' {
            at += 1;
        } else if at + 1 < text.len() && text[at + 1] == b'\'' {
            at += 2;
        } else {
            return Some(at + 1);
        }
    }
    None
}

/// The length of the comment at the front, up to the end of the text or the line feed that ends it;
/// the line feed is not included.
pub fn comment_length(text: &[u8]) -> usize
    ensures value { result ≡ comment_length text.now }
{
    text.iter().take_while(|b| **b != b'\n').count()
}

/// The length of the blank or comment at the front; 0 if there is none.
pub fn gap_length(text: &[u8]) -> usize
    ensures value { result ≡ gap_length text.now }
    ensures within { result ≤ length text.now }
{
    match text {
        [b'-', b'-', ..] => comment_length(text),
        [first, ..] if is_blank(*first) => 1,
        _ => 0,
    }
}

// The signs, the longest first.
static SIGNS: [&'static [u8]; 42] = [
    b"#<>", b"#<=", b"#>=", b"?<>", b"?<=", b"?>=", b"%<>", b"%<=", b"%>=", b"<->", b"|=|", b"#=",
    b"#<", b"#>", b"?=", b"?<", b"?>", b"%=", b"%<", b"%>", b"<>", b"!=", b"<=", b">=", b"||",
    b"&&", b"::", b"=", b"<", b">", b"+", b"-", b"*", b"/", b"&", b"|", b"~", b"(", b")", b",",
    b";", b".",
];

/// The length of the longest sign at the front of the text; `None` if there is none.
pub fn sign_length(text: &[u8]) -> Option<usize>
    ensures value { result ≡ sign_length text.now }
    ensures within { IfSome result (λ n. (0 < n) × (n ≤ length text.now)) }
{
    first_sign(&SIGNS, text)
}

// The length of the first of these signs that is at the front of the text.
fn first_sign(signs: &[&[u8]], text: &[u8]) -> Option<usize>
    ensures first { result ≡ first_sign (map (λ s. s.now) signs.now) text.now }
{
    for sign in signs {
        if text.starts_with(sign) {
            return Some(sign.len());
        }
    }
    None
}
