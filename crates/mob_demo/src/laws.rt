//! Example rows of the demo's table file. No code runs here.
ghost use Rattle.mob_demo.specs.Examples.{FirstPositions};

/// The first two minutes of the first ship.
pub fn first_ship()
    ensures positions { FirstPositions }
{}
