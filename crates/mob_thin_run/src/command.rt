//! Reads the settings of mobthin from the arguments.
ghost use Rattle.std.specs.Prelude.{◌≡◌, IfOk, IfSome, IsNone, codes, map, option_map, string_bytes};
ghost use Rattle.mob_ratio.specs.Ratio.{Ratio};
ghost use Rattle.mob_arguments.specs.Arguments.{IsDistance, IsRequired, Takes, option_value};
ghost use Rattle.mob_thin_run.specs.CommandLine.{ThinSays, thin_command};
ghost use Rattle.mob_thin_run.specs.declared.settings.ThinSettings.{ThinSettings as SettingsSeen};

use crate::settings::ThinSettings;
use mob_arguments::{distance_in, epoch_of, flag_of, given};
use mob_frac::Frac;
use std::alloc::{AllocError, Global};

/// The values of the options, borrowed from the arguments.
#[derive(Drop, Clone, Copy)]
pub struct Values<'a> {
    pub within: Option<&'a str>,
    pub epoch: Option<&'a str>,
    pub wide: Option<&'a str>,
}

// The value of each option, or `None` if the command does not take the arguments.
#[tactic(auto, using(crate::proofs::Facts::command_is_free))]
fn values_in<'a>(alloc: Global, words: &'a [String]) -> Result<Option<Values<'a>>, AllocError>
    ensures taken { IfOk result (λ o. IfSome o (λ v. Takes thin_command (map string_bytes words.entry.now))) }
    ensures refused { IfOk result (λ o. IsNone o → Takes thin_command (map string_bytes words.entry.now) → ⊥) }
    ensures within { IfOk result (λ o. IfSome o (λ v. option_map (λ s. s.now) v.within ≡ option_value thin_command (codes "within") (map string_bytes words.entry.now))) }
    ensures epoch { IfOk result (λ o. IfSome o (λ v. option_map (λ s. s.now) v.epoch ≡ option_value thin_command (codes "epoch") (map string_bytes words.entry.now))) }
    ensures wide { IfOk result (λ o. IfSome o (λ v. option_map (λ s. s.now) v.wide ≡ option_value thin_command (codes "wide") (map string_bytes words.entry.now))) }
{
    let Some(matches) = given(alloc, "mobthin", &["within", "epoch"], &["wide"], words)? else {
        return Ok(None);
    };
    Ok(Some(Values {
        within: matches.get_str("within"),
        epoch: matches.get_str("epoch"),
        wide: matches.get_str("wide"),
    }))
}

// The distance in the value of `--within`, which is required.
fn within_of(value: Option<&str>) -> Option<Frac>
    ensures some { IfSome result (λ d. IsRequired IsDistance (option_map (λ s. s.now) value.entry) d) }
    ensures none { IsNone result → (d : Ratio) → IsRequired IsDistance (option_map (λ s. s.now) value.entry) d → ⊥ }
{
    match value {
        None => None,
        Some(text) => distance_in(text),
    }
}

/// The settings that the arguments give, the first of which is the program's name: `--within D`
/// with a number that is not negative, `--epoch DATE`, and `--wide` without a value. `--within` is
/// required, and each option may be given once.
///
/// `None` exactly if the arguments are not accepted. The only error is a failed allocation.
pub fn settings(alloc: Global, words: &[String]) -> Result<Option<ThinSettings>, AllocError>
    ensures said { IfOk result (λ o. IfSome o (ThinSays (map string_bytes words.now))) }
    ensures refused { IfOk result (λ o. IsNone o → (s : SettingsSeen) → ThinSays (map string_bytes words.now) s → ⊥) }
{
    let Some(values) = values_in(alloc, words)? else {
        return Ok(None);
    };
    let Some(within) = within_of(values.within) else {
        return Ok(None);
    };
    let Some(epoch) = epoch_of(values.epoch) else {
        return Ok(None);
    };
    Ok(Some(ThinSettings {
        within,
        epoch,
        wide: flag_of(values.wide),
    }))
}
