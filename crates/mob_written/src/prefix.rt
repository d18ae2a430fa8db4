//! Reads the prefixes of a temporal literal.
ghost use Rattle.std.specs.Prelude.{◌≡◌, option_map};
ghost use Rattle.mob_written.specs.Prefix.{interpolation, reference, is_first as first_in, prefix_at as prefix_in, one_prefix_at as one_prefix_in, prefixes_at as prefixes_in};

use crate::written::Prefixes;
use mob_scalar::{any_case_at, spaced_at};

/// The text after `Interp=Step;`.
#[tactic(auto, unfolding(crate::specs::Prefix::prefix_at))]
fn interpolation_at(bytes: &[u8]) -> Option<&[u8]>
    ensures read { option_map (λ rest. ((tt, tt), rest.now)) result ≡ prefix_in interpolation bytes.now }
{
    spaced_at(b';', any_case_at(b"interp=step", bytes)?)
}

/// The text after `SRID=0;`.
#[tactic(auto, unfolding(crate::specs::Prefix::prefix_at))]
fn reference_at(bytes: &[u8]) -> Option<&[u8]>
    ensures read { option_map (λ rest. ((tt, tt), rest.now)) result ≡ prefix_in reference bytes.now }
{
    spaced_at(b';', any_case_at(b"srid=0", bytes)?)
}

/// Whether a byte is this letter, in either case, and the prefix that begins with it is admitted.
fn is_first(letter: u8, admitted: bool, byte: u8) -> bool
    ensures value { result ≡ first_in letter admitted byte }
{
    byte.to_ascii_lowercase() == letter && admitted
}

/// Reads one prefix, if its first letter is at the front. Returns the prefixes that are still
/// allowed and the rest of the text.
#[tactic(auto, unfolding(crate::specs::Prefix::one_prefix_at))]
fn one_prefix_at(admitted: Prefixes, bytes: &[u8]) -> Option<(Prefixes, &[u8])>
    ensures read { option_map (λ x. (x.0, x.1.now)) result ≡ one_prefix_in admitted bytes.now }
{
    let Prefixes { step, srid } = admitted;
    let [first, ..] = bytes else {
        return Some((Prefixes { step, srid }, bytes));
    };
    if is_first(b'i', step, *first) {
        let rest = interpolation_at(bytes)?;
        return Some((Prefixes { step: false, srid }, rest));
    }
    if is_first(b's', srid, *first) {
        let rest = reference_at(bytes)?;
        return Some((Prefixes { step, srid: false }, rest));
    }
    Some((Prefixes { step, srid }, bytes))
}

/// Reads the prefixes at the front. Returns the prefixes that are still allowed and the rest of the
/// text. `None` if the first letter of an allowed prefix begins something else.
#[tactic(auto, unfolding(crate::specs::Prefix::prefixes_at))]
pub fn prefixes_at(admitted: Prefixes, bytes: &[u8]) -> Option<(Prefixes, &[u8])>
    ensures read { option_map (λ x. (x.0, x.1.now)) result ≡ prefixes_in admitted bytes.now }
{
    let (left, rest) = one_prefix_at(admitted, bytes)?;
    one_prefix_at(left, rest)
}
