//! Laws of the texts of boxes. No code runs here.
ghost use Rattle.std.specs.Prelude.{◌≡◌, ℤ, true, Ok};
ghost use Rattle.mob_numeral.specs.Verdict.{HasOneReading, Lit};
ghost use Rattle.mob_stbox.specs.Boxes.{BoxOf, is_box};
ghost use Rattle.mob_geotext.specs.Boxes.{boxes};
ghost use Rattle.mob_geotext.specs.BoxText.{box_text, HasDatedSides};

/// A text has at most one reading as a box.
pub fn one_box()
    ensures one { (day : ℤ) → HasOneReading (boxes day) }
{}

/// A printed box whose span is in the years 0001 to 9999 reads back as itself.
pub fn box_read_again()
    ensures again { (day : ℤ) (b : BoxOf) → is_box b ≡ true → HasDatedSides day b → Lit (boxes day) (box_text day b) (Ok b) }
{}
