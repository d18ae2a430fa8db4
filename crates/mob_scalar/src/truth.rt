//! Reads and prints bools: `t`, `true`, `f`, `false`.
ghost use Rattle.std.specs.Prelude.{◌≡◌, ◌++◌, Some, option_map, OnOk, OnErr, string_bytes, ◌≢◌, Err};
ghost use Rattle.std.specs.Char.{is_ascii_alphabetic};
ghost use Rattle.std.specs.Str.{str_eq_ignore_ascii_case};
ghost use Rattle.mob_language.specs.Readers.{all_of, split_while, within_blanks_at};
ghost use Rattle.mob_scalar.specs.Truth.{truth_at as truth_in, is_word_true as word_true, is_truth as truth_word, truth_text, truths};
ghost use Rattle.mob_numeral.specs.declared.fault.ReadText.TheVariants.{NoMemory};
ghost use Rattle.mob_numeral.specs.Verdict.{Lit};

use mob_numeral::{ReadText, split_while, within_blanks};
use std::alloc::AllocError;

/// Splits the text into the letters at the front and the rest.
fn letters(bytes: &[u8]) -> (&[u8], &[u8])
    ensures value { (result.0.now, result.1.now) ≡ split_while is_ascii_alphabetic bytes.now }
{
    split_while(|c| c.is_ascii_alphabetic(), bytes)
}

fn is_word(text: &[u8], word: &[u8]) -> bool
    ensures value { result ≡ str_eq_ignore_ascii_case text.now word.now }
{
    text.eq_ignore_ascii_case(word)
}

fn is_word_true(word: &[u8]) -> bool
    ensures value { result ≡ word_true word.now }
{
    is_word(word, b"t") || is_word(word, b"true")
}

fn is_truth(word: &[u8]) -> bool
    ensures value { result ≡ truth_word word.now }
{
    is_word_true(word) || is_word(word, b"f") || is_word(word, b"false")
}

/// Reads a bool at the front. Returns it and the rest of the text.
#[tactic(auto, unfolding(crate::specs::Truth::truth_at))]
pub fn truth_at(bytes: &[u8]) -> Option<(bool, &[u8])>
    ensures value { option_map (λ x. (x.0, x.1.now)) result ≡ truth_in bytes.now }
{
    let (word, rest) = letters(bytes);
    if is_truth(word) {
        Some((is_word_true(word), rest))
    } else {
        None
    }
}

/// Reads all of the bytes as a bool with optional blanks at both ends.
fn truth_in_all(bytes: &[u8]) -> Option<bool>
    ensures value { result ≡ all_of (within_blanks_at truth_in) bytes.now }
{
    within_blanks(truth_at, bytes)
}

/// Reads a bool from its text: `t`, `true`, `f` or `false`, in any letter case, with optional
/// blanks at both ends. Any other text is `NotText`. It takes no memory.
pub fn read_truth(text: &str) -> Result<bool, ReadText>
    ensures reading { Lit truths text.now result }
    ensures memory { result ≢ Err NoMemory }
{
    match truth_in_all(text.as_bytes()) {
        None => Err(ReadText::NotText),
        Some(truth) => Ok(truth),
    }
}

/// Appends the text of a bool, `t` or `f`. An error means that an allocation failed; the text is
/// then unchanged.
pub fn write_truth(truth: bool, into: &mut String) -> Result<(), AllocError>
    ensures ok { OnOk result (string_bytes into.new ≡ string_bytes into.old ++ truth_text truth) }
    ensures err { OnErr result (string_bytes into.new ≡ string_bytes into.old) }
{
    into.push_str(if truth { "t" } else { "f" })
}
