//! Laws of tokens: where they are in their text. No code runs here.
ghost use Rattle.mob_chars.specs.Layout.{TokensAreLaid, FaultsAreStuck, TokensAreInOrder};

/// The tokens of a text follow one another to its end, with only blanks and comments between them.
pub fn tokens_are_laid()
    ensures laid { TokensAreLaid }
{}

/// If a text has no tokens, some tokens lead up to the place of the fault, and no token begins
/// there.
pub fn faults_are_stuck()
    ensures stuck { FaultsAreStuck }
{}

/// The tokens of a text are in order and do not overlap.
pub fn tokens_are_in_order()
    ensures in_order { TokensAreInOrder }
{}
