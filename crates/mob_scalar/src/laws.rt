//! Laws of reading and printing scalars. No code runs here.
ghost use Rattle.std.specs.Prelude.{◌≡◌, ℕ, ℤ, List, Ok, Err, true, Bool};
ghost use Rattle.mob_ratio.specs.Ratio.{Ratio};
ghost use Rattle.mob_frac.specs.Fits.{Fits};
ghost use Rattle.mob_numeral.specs.Numbers.{numbers, whole_numbers};
ghost use Rattle.mob_scalar.specs.Epochs.{epochs};
ghost use Rattle.mob_scalar.specs.Moments.{moments};
ghost use Rattle.mob_scalar.specs.MomentText.{HasDate, moment_text};
ghost use Rattle.std.specs.Str.{is_utf8};
ghost use Rattle.mob_scalar.specs.Quoted.{quoted_text, text_value};
ghost use Rattle.mob_scalar.specs.Truth.{truth_text, truths};
ghost use Rattle.mob_numeral.specs.declared.fault.ReadText.TheVariants.{NotText};
ghost use Rattle.mob_numeral.specs.Verdict.{HasOneReading, Lit};

use crate::Epoch;
use mob_list::laws::crosses_threads;

/// A printed bool reads back as itself.
pub fn truth_read_again()
    ensures again { (b : Bool) → Lit truths (truth_text b) (Ok b) }
{}

/// A printed moment in the years 0001 to 9999 reads back as itself.
pub fn moment_read_again()
    ensures again { (epoch : ℤ) (t : Ratio) → Fits t → HasDate epoch t → Lit (moments epoch) (moment_text epoch t) (Ok t) }
{}

/// The printed text of a moment outside the years 0001 to 9999 does not read as a moment.
pub fn far_moment_not_read()
    ensures not_read { (epoch : ℤ) (t : Ratio) → ¬ HasDate epoch t → Lit (moments epoch) (moment_text epoch t) (Err NotText) }
{}

/// A text has at most one reading as a number, as an int, as a moment, as a bool and as an epoch.
pub fn one_reading()
    ensures numbers { HasOneReading numbers }
    ensures wholes { HasOneReading whole_numbers }
    ensures moments { (epoch : ℤ) → HasOneReading (moments epoch) }
    ensures truths { HasOneReading truths }
    ensures epochs { HasOneReading epochs }
{}

/// A printed ttext value reads back as itself inside a ttext.
pub fn text_value_read_again()
    ensures again { (v : List ℕ) → is_utf8 v ≡ true → text_value (quoted_text v) v }
{}

/// Epochs cross threads.
pub fn epochs_cross_threads() {
    crosses_threads::<Epoch>();
}
