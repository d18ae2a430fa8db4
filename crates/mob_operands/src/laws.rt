//! Laws that connect operators and keys to the types of their operands. No code runs here.
ghost use Rattle.mob_operands.specs.Boxes.{EverythingHasACause};
ghost use Rattle.mob_operands.specs.Rows.{RowsHaveMeanings, CastsHaveMeanings, NullGivesNull, SettledIsTheValue};

/// Each operator of the table has a meaning on the types that its lines take: it gives a value of
/// the line's type, with whole numbers if that requires them.
///
/// NULL comes only if it is due. An operator over time is NULL only if its operands are never
/// defined together. A restriction is NULL only for a NULL, or if nothing is left. Any other
/// operator is NULL only for a NULL. For `/` the divisor is not 0. A cast that typing accepts has
/// such a meaning too. For a NULL operand every operator but AND, OR, IS NULL and IS NOT NULL is
/// NULL. An operand that decides AND or OR is the value.
pub fn rows_have_meanings()
    ensures rows { RowsHaveMeanings }
    ensures casts { CastsHaveMeanings }
    ensures null { NullGivesNull }
    ensures settled { SettledIsTheValue }
{}

/// A key whose values have their types asks for all rows only if an expression has a fault, or a
/// side of the expanded box does not fit.
pub fn everything_has_a_cause()
    ensures cause { EverythingHasACause }
{}
