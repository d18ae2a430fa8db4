//! Prints numbers.
ghost use Rattle.std.specs.Prelude.{◌≡◌, ◌++◌, OnOk, OnErr, string_bytes};
ghost use Rattle.mob_numeral.specs.NumberText.{number_text};

use itoa::Buffer;
use mob_frac::Frac;
use std::alloc::AllocError;

/// Appends the text of a number, `p` or `p/q` in lowest terms. An error means that an allocation
/// failed; the text is then unchanged.
pub fn write_number(n: &Frac, into: &mut String) -> Result<(), AllocError>
    ensures ok { OnOk result (string_bytes into.new ≡ string_bytes into.old ++ number_text n.now) }
    ensures err { OnErr result (string_bytes into.new ≡ string_bytes into.old) }
{
    let mut numerator = Buffer::new();
    let num = numerator.format(n.num());
    let den = n.den();
    if den == 1 {
        return into.push_str(num);
    }
    let mut denominator = Buffer::new();
    let den = denominator.format(den);
    into.reserve(num.len() + 1 + den.len())?;
    into.push_str(num)?;
    into.push_str("/")?;
    into.push_str(den)
}
