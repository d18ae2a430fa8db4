//! The values of options.
ghost use Rattle.std.specs.Prelude.{ℕ, ℤ, IfSome, IsNone, option_map};
ghost use Rattle.mob_ratio.specs.Ratio.{Ratio};
ghost use Rattle.mob_arguments.specs.Arguments.{IsCount, IsDistance, IsEpoch, IsFlag, IsRequired, IsWorkers};

use itoa::Buffer;
use mob_frac::Frac;
use mob_numeral::read_number;
use mob_scalar::Epoch;

// The greatest number of workers.
const MOST_WORKERS: u32 = 64;

/// A whole number from 1 to `most`, in decimal digits without a sign or a leading zero; `None` for
/// every other text.
pub fn count_in(text: &str, most: u32) -> Option<u32>
    ensures some { IfSome result (λ n. IsCount most text.now n) }
    ensures none { IsNone result → (n : ℕ) → IsCount most text.now n → ⊥ }
{
    let mut digits = Buffer::new();
    match text.parse::<u32>() {
        Ok(count) if 1 <= count && count <= most && digits.format(count) == text => { Some(count) }
        _ => None,
    }
}

/// The count from 1 to `most` in the value of a required option; `None` without a value and for
/// every other text.
pub fn count_of(value: Option<&str>, most: u32) -> Option<u32>
    ensures some { IfSome result (λ n. IsRequired (IsCount most) (option_map (λ s. s.now) value.entry) n) }
    ensures none { IsNone result → (n : ℕ) → IsRequired (IsCount most) (option_map (λ s. s.now) value.entry) n → ⊥ }
{
    match value {
        None => None,
        Some(text) => count_in(text, most),
    }
}

/// The number of workers in the value of `--workers`, from 1 to 64; 1 without a value; `None` for
/// every other text.
pub fn workers_of(value: Option<&str>) -> Option<u32>
    ensures some { IfSome result (λ n. IsWorkers (option_map (λ s. s.now) value.entry) n) }
    ensures none { IsNone result → (n : ℕ) → IsWorkers (option_map (λ s. s.now) value.entry) n → ⊥ }
{
    match value {
        None => Some(1),
        Some(text) => count_in(text, MOST_WORKERS),
    }
}

/// Whether a flag is given, from its value.
pub fn flag_of(value: Option<&str>) -> bool
    ensures flag { IsFlag (option_map (λ s. s.now) value.entry) result }
{
    match value {
        None => false,
        Some(text) => text == "true",
    }
}

/// A number that is not negative, written like a literal of type numeric; `None` for every other
/// text.
pub fn distance_in(text: &str) -> Option<Frac>
    ensures some { IfSome result (λ d. IsDistance text.now d) }
    ensures none { IsNone result → (d : Ratio) → IsDistance text.now d → ⊥ }
{
    let Ok(number) = read_number(text) else {
        return None;
    };
    if number.is_before(&Frac::zero()) {
        return None;
    }
    Some(number)
}

/// The epoch in the value of `--epoch`: an existing date `YYYY-MM-DD` of the years 0001 to 9999;
/// 2000-01-01 without a value; `None` for every other text.
pub fn epoch_of(value: Option<&str>) -> Option<Epoch>
    ensures some { IfSome result (λ epoch. IsEpoch (option_map (λ s. s.now) value.entry) epoch) }
    ensures none { IsNone result → (day : ℤ) → IsEpoch (option_map (λ s. s.now) value.entry) day → ⊥ }
{
    match value {
        None => Some(Epoch::standard()),
        Some(text) => Epoch::read(text).ok(),
    }
}
