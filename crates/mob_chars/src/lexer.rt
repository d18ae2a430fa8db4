//! Splits a text into tokens, from front to end.
ghost use Rattle.std.specs.Prelude.{◌≡◌, ◌<◌, ◌≤◌, ◌^◌, length, IfSome, IfOk, IfErr, Ok};
ghost use Rattle.mob_chars.specs.Tokens.{token_at, tokens_of, IsLexFault};

use crate::scan::{
    begins_number, gap_length, is_letter, number_length, quoted_length, sign_length, word_length,
};
use crate::token::{LexFault, Token, TokenKind};
use mob_list::fault::Fault;
use mob_list::items::Items;
use std::alloc::Global;

// The kind and the length of the token at the front of the text; `None` if no token begins there.
fn token_length(text: &[u8]) -> Option<(TokenKind, usize)>
    requires some { 0 < length text.now }
    ensures value { result ≡ token_at text.now }
    ensures within { IfSome result (λ x. (0 < x.1) × (x.1 ≤ length text.now)) }
{
    let first = text[0];
    if is_letter(first) {
        Some((TokenKind::Word, word_length(text)))
    } else if begins_number(text) {
        Some((TokenKind::Number, number_length(text)))
    } else if first == b'\'' {
        Some((TokenKind::Str, 1 + quoted_length(&text[1..])?))
    } else {
        Some((TokenKind::Sign, sign_length(text)?))
    }
}

/// The tokens of a text, in order; the last one marks its end. Only blanks and comments are between
/// them.
///
/// The fault is a place exactly if a character begins no token or a string is not closed, and it is
/// the first such place. `NoMemory` if an allocation fails.
pub fn tokens(alloc: Global, text: &str) -> Result<Items<Token>, LexFault>
    requires short { length text.now < 2 ^ 32 }
    ensures all { IfOk result (λ ts. tokens_of text.now ≡ Ok ts) }
    ensures fault { IfErr result (IsLexFault text.now) }
{
    let bytes = text.as_bytes();
    let mut found = Vec::new(alloc);
    let mut at = 0;
    while at < bytes.len() {
        let rest = &bytes[at..];
        let gap = gap_length(rest);
        if gap > 0 {
            at += gap;
        } else {
            let Some((kind, size)) = token_length(rest) else {
                return Err(Fault::Because(at as u32));
            };
            found.push(Token {
                kind,
                from: at as u32,
                to: (at + size) as u32,
            })?;
            at += size;
        }
    }
    found.push(Token {
        kind: TokenKind::End,
        from: at as u32,
        to: at as u32,
    })?;
    Ok(Items::from_vec(found))
}
