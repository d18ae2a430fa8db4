//! The arguments of mobsql.
ghost use Rattle.std.specs.Prelude.{ℕ, Option, IfOk, IfSome, IsNone, map, option_map, string_bytes};
ghost use Rattle.mob_arguments.specs.CommandLine.{IsDemo, WordsSay};
ghost use Rattle.mob_arguments.specs.declared.options.Settings.{Settings as SettingsSeen};

use crate::options::Settings;
use crate::readers::{count_in, epoch_of, flag_of, workers_of};
use crate::values::values_in;
use std::alloc::{AllocError, Global};

// The greatest number of ships of the demo.
const MOST_SHIPS: u32 = 1000;

// The number of ships of the demo in an option's value; without a value there is no demo.
#[tactic(auto, using(crate::proofs::Counts::no_ships))]
fn demo_of(value: Option<&str>) -> Option<Option<u32>>
    ensures some { IfSome result (λ demo. IsDemo (option_map (λ s. s.now) value.entry) demo) }
    ensures none { IsNone result → (demo : Option ℕ) → IsDemo (option_map (λ s. s.now) value.entry) demo → ⊥ }
{
    match value {
        None => Some(None),
        Some(text) => match count_in(text, MOST_SHIPS) {
            Some(ships) => Some(Some(ships)),
            None => None,
        },
    }
}

/// The settings that the arguments give, the first of which is the program's name. `--workers N`
/// has a whole number from 1 to 64 in decimal digits, `--epoch DATE` an existing date `YYYY-MM-DD`
/// of the years 0001 to 9999, and `--demo N` a whole number from 1 to 1000. `--wide` has no value.
/// Each option may be omitted, and may be given once; `--workers=N` is the same as the two
/// arguments.
///
/// `None` exactly if the arguments are not accepted: another argument, an option given twice or
/// without its value, `--wide` with a value, or an invalid value. Which arguments this command
/// takes is specified by `clap`. The only error is a failed allocation.
pub fn settings(alloc: Global, words: &[String]) -> Result<Option<Settings>, AllocError>
    ensures said { IfOk result (λ o. IfSome o (WordsSay (map string_bytes words.now))) }
    ensures refused { IfOk result (λ o. IsNone o → (s : SettingsSeen) → WordsSay (map string_bytes words.now) s → ⊥) }
{
    let Some(values) = values_in(alloc, words)? else {
        return Ok(None);
    };
    let Some(workers) = workers_of(values.workers) else {
        return Ok(None);
    };
    let Some(epoch) = epoch_of(values.epoch) else {
        return Ok(None);
    };
    let Some(demo) = demo_of(values.demo) else {
        return Ok(None);
    };
    Ok(Some(Settings {
        workers,
        epoch,
        demo,
        wide: flag_of(values.wide),
    }))
}
