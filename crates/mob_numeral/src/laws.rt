//! Laws of reading and printing numbers. No code runs here.
ghost use Rattle.std.specs.Prelude.{◌≡◌, Ok};
ghost use Rattle.mob_ratio.specs.Ratio.{Ratio};
ghost use Rattle.mob_frac.specs.Fits.{Fits};
ghost use Rattle.mob_numeral.specs.NonNil.{FiguresAreNonZero};
ghost use Rattle.mob_numeral.specs.Numbers.{numbers, whole_numbers};
ghost use Rattle.mob_numeral.specs.NumberText.{number_text};
ghost use Rattle.mob_numeral.specs.Verdict.{Lit};

/// A printed number reads back as itself.
pub fn number_read_again()
    ensures again { (q : Ratio) → Fits q → Lit numbers (number_text q) (Ok q) }
{}

/// A printed int reads back as itself.
pub fn whole_read_again()
    ensures again { (q : Ratio) → Fits q → q.den ≡ 1 → Lit whole_numbers (number_text q) (Ok q) }
{}

/// A number whose text has a digit other than 0 before any exponent and any slash is not 0.
pub fn numbers_with_figures()
    ensures numbers { FiguresAreNonZero numbers }
    ensures whole { FiguresAreNonZero whole_numbers }
{}
