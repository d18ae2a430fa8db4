//! Laws of cells. No code runs here.
ghost use Rattle.mob_cells.specs.Changes.{ChangesAreChanges, ChangesAreCuts, SpansHold};

/// A test that is constant on each cell of a span holds exactly at the instants of the spans that
/// its cells make.
pub fn spans_hold()
    ensures spans { SpansHold }
{}

/// Such a test changes at the instants between its cells that are listed, and at no other one
/// inside the span.
pub fn changes_are_changes()
    ensures changes { ChangesAreChanges }
{}

/// Each of these instants is a root of a function or an end of the span.
pub fn changes_are_cuts()
    ensures cuts { ChangesAreCuts }
{}
