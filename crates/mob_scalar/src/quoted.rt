//! Reads and prints the values of a ttext: in double quotes, or bare.
ghost use Rattle.std.specs.Prelude.{◌≡◌, ◌++◌, Some, IfOk, IfSome, option_map, OnOk, OnErr, string_bytes, length, is_some, encode_utf8, true, false};
ghost use Rattle.std.specs.Str.{is_utf8};
ghost use Rattle.mob_language.specs.Readers.{split_while, or_at};
ghost use Rattle.mob_scalar.specs.Quoted.{is_escaped as escapes, is_plain as plain, is_bare as bare, unescaped_at as unescaped_in, quoted_at as quoted_in, bare_at as bare_in, trimmed as trimmed_parts, text_value_at as text_value_in, escaped, quoted_text};

use mob_list::text::Text;
use mob_numeral::is_blank;
use std::alloc::{AllocError, Global};

fn is_escaped(c: u8) -> bool
    ensures value { result ≡ escapes c }
{
    c == 34 || c == 92
}

fn is_plain(c: u8) -> bool
    ensures value { result ≡ plain c }
{
    !matches!(c, 64 | 44 | 123 | 125 | 91 | 93 | 40 | 41 | 34)
}

/// Reads a value up to its closing quote. Returns it and the rest of the text.
#[tactic(auto, unfolding(crate::specs::Quoted::unescaped_at))]
fn unescaped_at(alloc: Global, bytes: &[u8]) -> Result<Option<(Vec<u8>, &[u8])>, AllocError>
    ensures value { IfOk result (λ o. option_map (λ x. (x.0.items, x.1.now)) o ≡ unescaped_in false bytes.now) }
{
    let mut value = Vec::new(alloc);
    let mut pending = false;
    let mut rest = bytes;
    while let [c, after @ ..] = rest {
        rest = after;
        if pending {
            if !is_escaped(*c) {
                return Ok(None);
            }
            value.push(*c)?;
            pending = false;
        } else if *c == 34 {
            return Ok(Some((value, rest)));
        } else if *c == 92 {
            pending = true;
        } else {
            value.push(*c)?;
        }
    }
    Ok(None)
}

#[tactic(auto, unfolding(crate::specs::Quoted::quoted_at))]
fn quoted_at(alloc: Global, bytes: &[u8]) -> Result<Option<(Vec<u8>, &[u8])>, AllocError>
    ensures value { IfOk result (λ o. option_map (λ x. (x.0.items, x.1.now)) o ≡ quoted_in bytes.now) }
{
    match bytes {
        [34, rest @ ..] => unescaped_at(alloc, rest),
        _ => Ok(None),
    }
}

/// The number of plain bytes at the front, without the blanks at their end.
fn bare_len(bytes: &[u8]) -> usize
    ensures value { result ≡ length (trimmed_parts (split_while plain bytes.now).0).0 }
{
    let mut i = 0;
    let mut end = 0;
    while i < bytes.len() {
        let c = bytes[i];
        if !is_plain(c) {
            return end;
        }
        i += 1;
        if !is_blank(c) {
            end = i;
        }
    }
    end
}

fn is_bare(value: &[u8]) -> bool
    ensures value { result ≡ bare value.now }
{
    if value.is_empty() {
        return false;
    }
    !is_blank(value[0]) && !is_blank(value[value.len() - 1])
}

#[tactic(auto, unfolding(crate::specs::Quoted::bare_at))]
fn bare_at(bytes: &[u8]) -> Option<(&[u8], &[u8])>
    ensures value { option_map (λ x. (x.0.now, x.1.now)) result ≡ bare_in bytes.now }
{
    let (value, rest) = bytes.split_at(bare_len(bytes));
    if is_bare(value) {
        Some((value, rest))
    } else {
        None
    }
}

/// Reads a value at the front. Returns its bytes and the rest of the text.
fn value_bytes_at(alloc: Global, bytes: &[u8]) -> Result<Option<(Vec<u8>, &[u8])>, AllocError>
    ensures value { IfOk result (λ o. option_map (λ x. (x.0.items, x.1.now)) o ≡ or_at quoted_in bare_in bytes.now) }
{
    if let Some(found) = quoted_at(alloc, bytes)? {
        return Ok(Some(found));
    }
    match bare_at(bytes) {
        Some((value, rest)) => Ok(Some((value.to_vec(alloc)?, rest))),
        None => Ok(None),
    }
}

fn text_of(bytes: Vec<u8>) -> Option<Text>
    ensures value { IfSome result (λ text. text ≡ bytes.items) }
    ensures there { is_some result ≡ is_utf8 bytes.items }
{
    match String::from_utf8(bytes) {
        Ok(text) => Some(Text::from_string(text)),
        Err(_) => None,
    }
}

/// Reads a value of a ttext at the front. Returns it and the rest of the text. An error means that
/// an allocation failed.
#[tactic(auto, unfolding(crate::specs::Quoted::text_value_at))]
pub fn text_value_at(alloc: Global, bytes: &[u8]) -> Result<Option<(Text, &[u8])>, AllocError>
    ensures value { IfOk result (λ o. option_map (λ x. (x.0, x.1.now)) o ≡ text_value_in bytes.now) }
{
    let Some((value, rest)) = value_bytes_at(alloc, bytes)? else {
        return Ok(None);
    };
    match text_of(value) {
        Some(text) => Ok(Some((text, rest))),
        None => Ok(None),
    }
}

fn needs_backslash(c: char) -> bool
    ensures value { result ≡ escapes c }
{
    c == '"' || c == '\\'
}

/// Appends one character of a value, with a backslash before it if it needs one.
#[tactic(auto, using(crate::proofs::EscapedLemmas::escape_one, crate::proofs::EscapedLemmas::escape_none))]
fn push_escaped(c: char, into: &mut String) -> Result<(), AllocError>
    ensures written { OnOk result (string_bytes into.new ≡ string_bytes into.old ++ escaped (encode_utf8 c)) }
{
    if needs_backslash(c) {
        into.push_str("\\")?;
        return into.push(c);
    }
    into.push(c)
}

fn push_quoted(value: &str, into: &mut String) -> Result<(), AllocError>
    ensures written { OnOk result (string_bytes into.new ≡ string_bytes into.old ++ quoted_text value.now) }
{
    into.push_str("\"")?;
    for c in value.chars() {
        push_escaped(c, into)?;
    }
    into.push_str("\"")
}

/// Appends the text of a ttext value: in double quotes, with a backslash before each double quote
/// and each backslash. An error means that an allocation failed; the text is then unchanged.
pub fn write_text_value(value: &Text, into: &mut String) -> Result<(), AllocError>
    ensures ok { OnOk result (string_bytes into.new ≡ string_bytes into.old ++ quoted_text value.now) }
    ensures err { OnErr result (string_bytes into.new ≡ string_bytes into.old) }
{
    let mut text = String::new(*into.allocator());
    push_quoted(value.as_str(), &mut text)?;
    into.push_str(text.as_str())
}
