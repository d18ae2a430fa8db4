//! Reads words, ignoring case.
ghost use Rattle.std.specs.Prelude.{◌≡◌, option_map};
ghost use Rattle.mob_language.specs.Readers.{any_case_at as any_case_in};

/// The text after this word, in any letter case; `None` if it is not at the front. `word` is in
/// lower case.
pub fn any_case_at<'a>(word: &[u8], bytes: &'a [u8]) -> Option<&'a [u8]>
    ensures read { option_map (λ rest. (tt, rest.now)) result ≡ any_case_in word.now bytes.now }
{
    let mut rest = bytes;
    for letter in word {
        let [first, after @ ..] = rest else {
            return None;
        };
        if first.to_ascii_lowercase() != *letter {
            return None;
        }
        rest = after;
    }
    Some(rest)
}
