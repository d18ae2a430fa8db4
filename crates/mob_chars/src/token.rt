//! Tokens, and the reasons for which a text has none.

use mob_list::fault::Fault;

/// The kind of a token.
#[derive(Clone, Copy, Debug, PartialEq, Eq)]
pub enum TokenKind {
    /// A letter or `_`, and then letters, digits and `_`, all ASCII: a name or a reserved word.
    Word,
    /// Digits with at most one point and at least one digit, then an optional exponent.
    Number,
    /// A text in single quotes, in which `''` is one quote.
    Str,
    /// One of the signs of the language, the longest that fits.
    Sign,
    /// The end of the text.
    End,
}

/// A token: its kind, and its bytes in the text as a half-open interval.
#[derive(Clone, Copy, Debug, PartialEq, Eq)]
pub struct Token {
    pub kind: TokenKind,
    /// The place of its first byte, counted from 0.
    pub from: u32,
    /// The place after its last byte.
    pub to: u32,
}

/// Why a text has no tokens: the place, in bytes from 0, of a character that begins no token or of
/// the opening quote of a string that is not closed; or a failed allocation.
pub type LexFault = Fault<u32>;
