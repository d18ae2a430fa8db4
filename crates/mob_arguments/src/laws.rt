//! Laws of command lines. No code runs here.
ghost use Rattle.mob_arguments.specs.Outcomes.{SaysOneThing};

/// The arguments give one record of settings.
pub fn one_setting()
    ensures setting { SaysOneThing }
{}
