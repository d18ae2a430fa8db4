//! Laws of literals and fields: each has one reading, and what is printed reads back. No code runs
//! here.

ghost use Rattle.std.specs.Prelude.{◌≡◌, ◌≢◌, ◌++◌, List, Bool, ℕ, ℤ, Result, Ok, Err, true, false};
ghost use Rattle.mob_language.specs.Language.{Text};
ghost use Rattle.mob_ast.specs.declared.types.SqlType.{SqlType};
ghost use Rattle.mob_literal.specs.Fields.{is_null_field, text_of_field, field_text};
ghost use Rattle.mob_written.specs.declared.written.Literal.{Literal};
ghost use Rattle.mob_written.specs.declared.written.Noted.{Noted};
ghost use Rattle.mob_written.specs.Literal.{Prefixed, literal, noted};
ghost use Rattle.mob_written.specs.Prefix.{Prefix, ArePrefixes, admitted, says_step};
ghost use Rattle.mob_written.specs.Printed.{moving_text};
ghost use Rattle.mob_literal.specs.Readable.{AnyTruth, AreLevel, IsInt, IsReadAgain, IsReadable, IsText};
ghost use Rattle.mob_literal.specs.Sound.{literals, steps};
ghost use Rattle.mob_literal.specs.SqlReadable.{IsReadableAs};
ghost use Rattle.mob_literal.specs.SqlText.{SaysAs, value_text};
ghost use Rattle.mob_written.specs.Style.{style_of};
ghost use Rattle.mob_numeral.specs.Fitting.{number_value};
ghost use Rattle.mob_written.specs.Values.{any_value, is_whole_number, quoted_value, truth_value};
ghost use Rattle.mob_ratio.specs.Order.{same};
ghost use Rattle.mob_ratio.specs.Ratio.{Ratio};
ghost use Rattle.mob_span.specs.Flags.{same_bool};
ghost use Rattle.mob_numeral.specs.NumberText.{number_text};
ghost use Rattle.mob_scalar.specs.Quoted.{quoted_text};
ghost use Rattle.mob_scalar.specs.Truth.{truth_text};
ghost use Rattle.mob_numeral.specs.Verdict.{HasOneReading, Lit};
ghost use Rattle.mob_numeral.specs.declared.fault.ReadText.{ReadText};
ghost use Rattle.mob_numeral.specs.declared.fault.ReadText.TheVariants.{NoMemory};
ghost use Rattle.mob_slice.specs.CourseOf.{course_of, steady_course};
ghost use Rattle.mob_slice.specs.Sameness.{same_bytes};
ghost use Rattle.mob_slice.specs.declared.slice.Slice.{Slice};
ghost use Rattle.mob_slice.specs.declared.steady.Steady.{Steady};
ghost use Rattle.mob_value.specs.declared.value.Value.{Value};
ghost use Rattle.mob_value.specs.declared.value.Value.TheVariants.{Null};

use mob_slice::Course;
use mob_written::WrittenValue;
use mob_written::printing::Printed;

/// A literal of a step type has no prefix: its text is that of its sequences.
pub fn nothing_before_steps<T: WrittenValue>()
    ensures alone { (day : ℤ) (text : Text) (v : Literal (Noted T.Base)) → Prefixed (admitted true false) (noted day T.shape) text v → literal (noted day T.shape) text v.sequences }
    ensures unsaid { (day : ℤ) (text : Text) (v : Literal (Noted T.Base)) → Prefixed (admitted true false) (noted day T.shape) text v → v.says_step ≡ false }
{}

/// A literal of a step type has at most one reading, and so has the text of a value of each type.
pub fn one_reading()
    ensures truths { (day : ℤ) → HasOneReading (steps day truth_value any_value same_bool) }
    ensures numbers { (day : ℤ) → HasOneReading (steps day number_value is_whole_number same) }
    ensures texts { (day : ℤ) → HasOneReading (steps day quoted_value any_value same_bytes) }
    ensures values { (ty : SqlType) (day : ℤ) (text : Text) (a b : Result Value ReadText)
        → a ≢ Err NoMemory → b ≢ Err NoMemory → SaysAs ty day text a → SaysAs ty day text b → a ≡ b }
{}

/// A literal of any type, over any course, has at most one reading.
pub fn one_reading_over_every_course<T: WrittenValue, C: Course<Base = T::Base>>()
    ensures one { (day : ℤ) → HasOneReading (literals day T.HAS_SRID T.shape T.has_value (course_of C.Course T.Base.is_same)) }
{}

/// A printed step value reads back as itself if its instants are in the years 0001 to 9999 and at
/// most 100,000 of them are printed.
pub fn steps_read_again()
    ensures truths { (day : ℤ) (v : List (Slice (Steady Bool))) → IsReadable (steady_course same_bool) day truth_text AnyTruth v
        → Lit (steps day truth_value any_value same_bool) (moving_text (style_of (steady_course same_bool) truth_text day) v) (Ok v) }
    ensures numbers { (day : ℤ) (v : List (Slice (Steady Ratio))) → IsReadable (steady_course same) day number_text IsInt v
        → Lit (steps day number_value is_whole_number same) (moving_text (style_of (steady_course same) number_text day) v) (Ok v) }
    ensures texts { (day : ℤ) (v : List (Slice (Steady (List ℕ)))) → IsReadable (steady_course same_bytes) day quoted_text IsText v
        → Lit (steps day quoted_value any_value same_bytes) (moving_text (style_of (steady_course same_bytes) quoted_text day) v) (Ok v) }
{}

/// A printed temporal value reads back as itself if each of its printed values does. The prefixes
/// that its type admits may come before it: `SRID=0;` changes nothing, and `Interp=Step;` changes
/// nothing if each slice ends with the value with which it starts.
pub fn literals_read_again<T: WrittenValue, C: Course<Base = T::Base>>()
where
    T::Base: Printed,
    ensures again { (day : ℤ) (v : List (Slice C)) (before : List Prefix) (front : Text)
        → IsReadable (course_of C.Course T.Base.is_same) day T.Base.text (IsReadAgain T.shape T.Base.text T.has_value (admitted C.STEADY T.HAS_SRID)) v
        → ArePrefixes (admitted C.STEADY T.HAS_SRID) front before
        → (says_step before ≡ true → AreLevel (course_of C.Course T.Base.is_same) v)
        → Lit (literals day T.HAS_SRID T.shape T.has_value (course_of C.Course T.Base.is_same))
        (front ++ moving_text (style_of (course_of C.Course T.Base.is_same) T.Base.text day) v) (Ok v) }
{}

/// The printed text of a value of any type reads back as that value, under the same conditions on
/// its instants.
pub fn value_read_again()
    ensures again { (ty : SqlType) (day : ℤ) (v : Value) → IsReadableAs ty day v → SaysAs ty day (value_text day v) (Ok v) }
{}

/// The field of NULL reads back as NULL, and the field of any other value as that value, under the
/// same conditions on its instants.
pub fn field_read_again()
    ensures null { (ty : SqlType) (day : ℤ) → is_null_field ty (field_text day Null) ≡ true }
    ensures there { (ty : SqlType) (day : ℤ) (v : Value) → IsReadableAs ty day v → is_null_field ty (field_text day v) ≡ false }
    ensures again { (ty : SqlType) (day : ℤ) (v : Value) → IsReadableAs ty day v
        → SaysAs ty day (text_of_field ty (field_text day v)) (Ok v) }
{}
