//! The values that arguments give to the options of mobsql.
ghost use Rattle.std.specs.Prelude.{◌≡◌, IfOk, IfSome, IsNone, codes, map, option_map, string_bytes};
ghost use Rattle.mob_arguments.specs.Arguments.{Takes, option_value};
ghost use Rattle.mob_arguments.specs.CommandLine.{command};

use crate::command::given;
use std::alloc::{AllocError, Global};

// The values of the options, borrowed from the arguments.
#[derive(Drop, Clone, Copy)]
pub struct Values<'a> {
    pub workers: Option<&'a str>,
    pub epoch: Option<&'a str>,
    pub demo: Option<&'a str>,
    pub wide: Option<&'a str>,
}

/// The values of the options, or `None` exactly if the command does not take the arguments. An
/// option that takes a value and is not given has none. The only error is a failed allocation.
#[tactic(auto, using(crate::proofs::Facts::command_is_free))]
pub fn values_in<'a>(alloc: Global, words: &'a [String]) -> Result<Option<Values<'a>>, AllocError>
    ensures taken { IfOk result (λ o. IfSome o (λ v. Takes command (map string_bytes words.entry.now))) }
    ensures refused { IfOk result (λ o. IsNone o → Takes command (map string_bytes words.entry.now) → ⊥) }
    ensures workers { IfOk result (λ o. IfSome o (λ v. option_map (λ s. s.now) v.workers ≡ option_value command (codes "workers") (map string_bytes words.entry.now))) }
    ensures epoch { IfOk result (λ o. IfSome o (λ v. option_map (λ s. s.now) v.epoch ≡ option_value command (codes "epoch") (map string_bytes words.entry.now))) }
    ensures demo { IfOk result (λ o. IfSome o (λ v. option_map (λ s. s.now) v.demo ≡ option_value command (codes "demo") (map string_bytes words.entry.now))) }
    ensures wide { IfOk result (λ o. IfSome o (λ v. option_map (λ s. s.now) v.wide ≡ option_value command (codes "wide") (map string_bytes words.entry.now))) }
{
    let Some(matches) = given(
        alloc,
        "mobsql",
        &["workers", "epoch", "demo"],
        &["wide"],
        words,
    )?
    else {
        return Ok(None);
    };
    Ok(Some(Values {
        workers: matches.get_str("workers"),
        epoch: matches.get_str("epoch"),
        demo: matches.get_str("demo"),
        wide: matches.get_str("wide"),
    }))
}
