//! Computes the instants of moments.
ghost use Rattle.std.specs.Prelude.{◌≡◌, ◌<◌, ◌^◌, ℤ, pos, nat_abs, ◌*ℤ◌, ◌-ℤ◌, option_map, Option, Some, None, IfSome, true, ◌≢◌, Err};
ghost use Rattle.mob_frac.specs.Fits.{IsExact};
ghost use Rattle.mob_ratio.specs.Ratio.{whole, over, ◌+ℚ◌};
ghost use Rattle.mob_numeral.specs.Fitting.{fitting};
ghost use Rattle.mob_language.specs.Readers.{all_of, within_blanks_at};
ghost use Rattle.mob_scalar.specs.Calendar.{is_civil as civil};
ghost use Rattle.mob_scalar.specs.Moment.{instant, IsPartSmall};
ghost use Rattle.mob_scalar.specs.MomentReaders.{moment_at as moment_in};
ghost use Rattle.mob_scalar.specs.Moments.{moments, moment_value_at as moment_value_in};
ghost use Rattle.mob_numeral.specs.declared.fault.ReadText.TheVariants.{NoMemory};
ghost use Rattle.mob_numeral.specs.Verdict.{Lit};

use crate::epoch::Epoch;
use crate::stamp::{Part, Stamp, moment_at, seconds_of};
use mob_frac::{Frac, Overflow, over_product};
use mob_numeral::{ReadText, within_blanks};

// Seconds since midnight of the epoch day.
fn since(seconds: i64, epoch: &Epoch) -> i64
    requires seconds { nat_abs seconds < 2 ^ 51 }
    ensures value { result ≡ seconds -ℤ epoch.now *ℤ pos 86400 }
    ensures bound { nat_abs result < 2 ^ 62 }
{
    seconds - epoch.start()
}

fn whole_number(n: i64) -> Result<Frac, Overflow>
    ensures exact { IsExact (whole n) result }
{
    Frac::new(n, 1)
}

fn plus_part(n: i64, part: Part) -> Result<Frac, Overflow>
    requires bound { nat_abs n < 2 ^ 62 }
    requires part { IsPartSmall part }
    ensures exact { IsExact (whole n +ℚ over (pos part.numerator) part.denominator) result }
{
    match over_product(false, part.numerator, part.denominator, 1) {
        Err(_) => Err(Overflow),
        Ok(part) => match whole_number(n) {
            Err(_) => Err(Overflow),
            Ok(n) => n.add(&part),
        },
    }
}

/// The instant of a moment, in seconds since midnight UTC of the epoch day. `Overflow` if it does
/// not fit in 62 bits.
#[tactic(auto, unfolding(crate::specs::Moment::instant))]
pub fn place(stamp: Stamp, epoch: &Epoch) -> Result<Frac, Overflow>
    requires date { civil stamp.date ≡ true }
    requires part { IsPartSmall stamp.clock.part }
    ensures exact { IsExact (instant epoch.now stamp) result }
{
    plus_part(since(seconds_of(stamp), epoch), stamp.clock.part)
}

/// The instant of a moment; `None` if it does not fit.
#[tactic(auto, unfolding(mob_numeral::specs::Fitting::fits))]
pub fn instant_of(stamp: Stamp, epoch: &Epoch) -> Option<Frac>
    requires date { civil stamp.date ≡ true }
    requires part { IsPartSmall stamp.clock.part }
    ensures value { result ≡ fitting (instant epoch.now stamp) }
{
    match place(stamp, epoch) {
        Ok(instant) => Some(instant),
        Err(_) => None,
    }
}

/// Reads a moment at the front. Returns its instant, if it fits, and the rest of the text.
#[tactic(auto, unfolding(crate::specs::Moments::moment_value_at))]
pub fn moment_value_at<'a>(epoch: &Epoch, bytes: &'a [u8]) -> Option<(Option<Frac>, &'a [u8])>
    ensures read { option_map (λ x. (x.0, x.1.now)) result ≡ moment_value_in epoch.now bytes.now }
{
    match moment_at(bytes) {
        Some((stamp, rest)) => Some((instant_of(stamp, epoch), rest)),
        None => None,
    }
}

/// Reads all of the bytes as a moment with optional blanks at both ends.
fn stamp_of(bytes: &[u8]) -> Option<Stamp>
    ensures value { result ≡ all_of (within_blanks_at moment_in) bytes.now }
    ensures there { IfSome result (λ s. civil s.date ≡ true) }
{
    within_blanks(moment_at, bytes)
}

/// Reads a moment from its text, which has the form of a timestamptz of PostgreSQL. Returns its
/// instant, in seconds since midnight UTC of the epoch day.
///
/// A moment is a date `YYYY-MM-DD`, optionally followed by a time; blanks or a `T` are between the
/// two. A time is `HH:MM` or `HH:MM:SS`. After the seconds there may be a part of a second: `.` and
/// 1 to 18 digits, or `(p/q)` with p below q. After the time there may be an offset: `Z`, `+HH`,
/// `-HH`, `+HH:MM` or `-HH:MM`, with at most 15 hours. The date exists, and the instant is in the
/// years 0001 to 9999 in UTC. Blanks may be at both ends. Any other text is `NotText`. An instant
/// of more than 62 bits is `TooLarge`. It takes no memory.
pub fn read_moment(text: &str, epoch: &Epoch) -> Result<Frac, ReadText>
    ensures reading { Lit (moments epoch.now) text.now result }
    ensures memory { result ≢ Err NoMemory }
{
    match stamp_of(text.as_bytes()) {
        None => Err(ReadText::NotText),
        Some(stamp) => match place(stamp, epoch) {
            Ok(q) => Ok(q),
            Err(_) => Err(ReadText::TooLarge),
        },
    }
}
