//! Reads brackets, commas and the members between them.
ghost use Rattle.std.specs.Prelude.{◌≡◌, option_map, IfOk};
ghost use Rattle.mob_language.specs.Readers.{TextReader, separated_at as separated_in};
ghost use Rattle.mob_scalar.specs.Brackets.{comma_at as comma_in, opening_at as opening_in, closing_at as closing_in};

use mob_numeral::{blanks, spaced_at};
use std::alloc::{AllocError, Global};

/// Reads an opening bracket and the blanks after it. Returns the bracket and the rest of the text.
#[tactic(auto, unfolding(crate::specs::Brackets::opening_at))]
pub fn opening_at(bytes: &[u8]) -> Option<(u8, &[u8])>
    ensures read { option_map (λ x. (x.0, x.1.now)) result ≡ opening_in bytes.now }
{
    match bytes {
        [91, rest @ ..] => Some((91, blanks(rest).1)),
        [40, rest @ ..] => Some((40, blanks(rest).1)),
        _ => None,
    }
}

/// Reads a closing bracket and the blanks before it. Returns the bracket and the rest of the text.
#[tactic(auto, unfolding(crate::specs::Brackets::closing_at))]
pub fn closing_at(bytes: &[u8]) -> Option<(u8, &[u8])>
    ensures read { option_map (λ x. (x.0, x.1.now)) result ≡ closing_in bytes.now }
{
    match blanks(bytes).1 {
        [93, rest @ ..] => Some((93, rest)),
        [41, rest @ ..] => Some((41, rest)),
        _ => None,
    }
}

/// Reads members with commas between them. Returns them and the rest of the text. An error means
/// that an allocation failed.
#[tactic(auto, unfolding(mob_language::specs::Readers::separated_at))]
pub fn separated_at<'a, A: Drop, F: Fn(&'a [u8]) -> Result<Option<(A, &'a [u8])>, AllocError>>(
    alloc: Global,
    member_at: F,
    bytes: &'a [u8],
) -> Result<Option<(Vec<A>, &'a [u8])>, AllocError>
    requires callable { F.IsAlwaysCallable member_at }
    ensures read { (reader : TextReader A) → ((text : _) (found : _) → F.post member_at text found → IfOk found (λ o. option_map (λ x. (x.0, x.1.now)) o ≡ reader text.now)) → IfOk result (λ o. option_map (λ x. (x.0.items, x.1.now)) o ≡ separated_in reader comma_in bytes.now) }
{
    let mut members = Vec::new(alloc);
    let mut rest = bytes;
    for _ in 0..bytes.len() + 1 {
        let Some((member, after)) = member_at(rest)? else {
            return Ok(None);
        };
        members.push(member)?;
        match spaced_at(b',', after) {
            Some(next) => rest = next,
            None => return Ok(Some((members, after))),
        }
    }
    Ok(None)
}
