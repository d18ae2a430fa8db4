//! Laws of script texts: which are accepted, their order, and how places are numbered. No code runs
//! here.
ghost use Rattle.mob_accept.specs.Numbers.{OperatorsAreNumbered, TextIsNumbered, TreesAreNumbered, TypingKeepsNumbers, TypingRefusesInside, WrongNamesAreAtSites, WrongNamesAreNumbered, WrongTokensAreNumbered};
ghost use Rattle.mob_accept.specs.Outcomes.{HasOneScript, NeverTakenAndRefused, HasOneTextRefusal};
ghost use Rattle.mob_accept.specs.Written.{AreWritten, TreesRise, TypingKeepsOrder};

/// An accepted text is exactly one script, and no text is both accepted and refused.
pub fn one_script()
    ensures script { HasOneScript }
    ensures apart { NeverTakenAndRefused }
{}

/// A text that is refused for its own content has one refusal: its kind, its statement and its
/// place.
pub fn one_text_refusal()
    ensures refusal { HasOneTextRefusal }
{}

/// In an accepted text the literals are in written order, and so are the brackets of each INSERT.
/// The trees of a text are in written order too, and typing keeps that order.
pub fn text_is_written()
    ensures trees { TreesRise }
    ensures typing { TypingKeepsOrder }
    ensures order { AreWritten }
{}

/// An accepted text is numbered by its `;` tokens. Each literal is in the statement whose number it
/// has, and each row, operator and aggregate is in its own statement. The trees of a text are
/// numbered in the same way, and typing keeps their numbers.
pub fn text_is_numbered()
    ensures trees { TreesAreNumbered }
    ensures typing { TypingKeepsNumbers }
    ensures numbers { TextIsNumbered }
    ensures operators { OperatorsAreNumbered }
{}

/// A refusal of a name, a type or a token gives the number of the statement that its place is in.
/// If the sites of the trees are numbered by statement, so are the refusals of typing. A refusal of
/// a name or a type is at a site of the tree of its statement: the place of a node, a word or a
/// string.
pub fn refusals_are_numbered()
    ensures typing { TypingRefusesInside }
    ensures names { WrongNamesAreNumbered }
    ensures sites { WrongNamesAreAtSites }
    ensures tokens { WrongTokensAreNumbered }
{}
