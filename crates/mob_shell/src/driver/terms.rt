//! The terms of a run.
ghost use Rattle.std.specs.Prelude.{◌≡◌};
ghost use Rattle.mob_shell.specs.Terms.{terms_of};

use mob_arguments::Settings;
use mob_meaning::Terms;
use mob_slice::mode_of;

/// The terms of a run with these settings.
pub fn terms_of(settings: &Settings) -> Terms
    ensures terms { result ≡ terms_of settings.now }
{
    Terms {
        epoch: settings.epoch,
        mode: mode_of(settings.wide),
    }
}
