//! Readers of small parts, which several larger readers share.
ghost use Rattle.std.specs.Prelude.{◌≡◌, ◌<◌, ℕ, Bool, [], ◌∷◌, Option, Some, IfSome, option_map};
ghost use Rattle.mob_language.specs.Language.{is_blank as blank};
ghost use Rattle.mob_language.specs.Readers.{TextReader, all_of, spaced_at as spaced_in, split_while, maybe_of, word_at, within_blanks_at};
ghost use Rattle.mob_numeral.specs.Blanks.{some_blanks_at as some_blanks_in};

/// The text after this byte, if it is at the front.
pub fn behind(sign: u8, bytes: &[u8]) -> Option<&[u8]>
    ensures value { option_map (λ rest. (tt, rest.now)) result ≡ word_at (sign ∷ []) bytes.now }
{
    match bytes {
        [first, rest @ ..] if *first == sign => Some(rest),
        _ => None,
    }
}

/// What was found at the front, if anything was, and the rest of the text.
pub fn maybe<'a, T>(found: Option<(T, &'a [u8])>, bytes: &'a [u8]) -> (Option<T>, &'a [u8])
    ensures value { Some (result.0, result.1.now) ≡ maybe_of bytes.now (option_map (λ x. (x.0, x.1.now)) found.entry) }
{
    match found {
        Some((value, rest)) => (Some(value), rest),
        None => (None, bytes),
    }
}

/// Splits the bytes into those at the front that pass the test and the rest.
pub fn split_while<F: Fn(u8) -> bool>(passes: F, bytes: &[u8]) -> (&[u8], &[u8])
    requires callable { F.IsAlwaysCallable passes }
    ensures split { (test : ℕ → Bool) → ((c : ℕ) (passed : Bool) → c < 256 → F.post passes c passed → passed ≡ test c) → (result.0.now, result.1.now) ≡ split_while test bytes.now }
{
    let mut i = 0;
    while i < bytes.len() {
        if !passes(bytes[i]) {
            return bytes.split_at(i);
        }
        i += 1;
    }
    bytes.split_at(i)
}

/// Whether a byte is a space, a tab, a carriage return or a line feed.
pub fn is_blank(c: u8) -> bool
    ensures test { result ≡ blank c }
{
    c == 32 || c == 9 || c == 13 || c == 10
}

/// Splits the text into the blanks at the front and the rest.
pub fn blanks(bytes: &[u8]) -> (&[u8], &[u8])
    ensures split { (result.0.now, result.1.now) ≡ split_while blank bytes.now }
{
    split_while(is_blank, bytes)
}

/// The text after this byte and the optional blanks on both sides of it; `None` if it does not come
/// next.
pub fn spaced_at(sign: u8, bytes: &[u8]) -> Option<&[u8]>
    ensures read { option_map (λ rest. (tt, rest.now)) result ≡ spaced_in (sign ∷ []) bytes.now }
{
    match blanks(bytes).1 {
        [first, rest @ ..] if *first == sign => Some(blanks(rest).1),
        _ => None,
    }
}

/// Reads at least one blank at the front. Returns the rest of the text.
#[tactic(auto, unfolding(crate::specs::Blanks::some_blanks_at))]
pub fn some_blanks_at(bytes: &[u8]) -> Option<((), &[u8])>
    ensures value { option_map (λ x. (x.0, x.1.now)) result ≡ some_blanks_in bytes.now }
{
    let (blanks, rest) = blanks(bytes);
    if 0 < blanks.len() {
        Some(((), rest))
    } else {
        None
    }
}

/// Reads all of the bytes, without the blanks at their ends, by a reader of their front.
pub fn within_blanks<'a, T: Drop, F: Fn(&'a [u8]) -> Option<(T, &'a [u8])>>(
    find: F,
    bytes: &'a [u8],
) -> Option<T>
    requires callable { F.IsAlwaysCallable find }
    ensures value { (reader : TextReader T) → ((text : _) (found : _) → F.post find text found → option_map (λ x. (x.0, x.1.now)) found ≡ reader text.now) → result ≡ all_of (within_blanks_at reader) bytes.now }
    ensures found { IfSome result (λ value. (text : _) × (rest : _) × F.post find text (Some (value, rest))) }
{
    let (value, rest) = find(blanks(bytes).1)?;
    if blanks(rest).1.is_empty() {
        Some(value)
    } else {
        None
    }
}
