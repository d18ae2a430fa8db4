//! Laws of typed scripts: their types, their names and their places. No code runs here.
ghost use Rattle.mob_typing.specs.Stands.{OperatorsAreAtSites, TypingRefusesAtSites};
ghost use Rattle.mob_typing.specs.WellTyped.{TypingGivesWellTyped, TypingKeepsNamesApart};

/// Each number in a typed script names something that exists and has the type it needs: a constant,
/// a column or a table. Each operator has a row of the table for the types of its arguments. The
/// divisor of a division is a number literal with a digit other than 0 before any e and any slash.
/// Names are distinct: those of tables, of indexes, of the columns of a table, and of the tables of
/// a FROM.
pub fn scripts_are_well_typed()
    ensures typed { TypingGivesWellTyped }
    ensures names { TypingKeepsNamesApart }
{}

/// A refusal of a name or a type is at a site of the tree of the statement that it names: the place
/// of a node, a word or a string. Each operator and each aggregate of a typed script is at a site
/// of the tree of its statement.
pub fn places_are_sites()
    ensures refusals { TypingRefusesAtSites }
    ensures operators { OperatorsAreAtSites }
{}
