//! The values that arguments give to the options.
ghost use Rattle.std.specs.Prelude.{◌≡◌, IfOk, IfSome, IsNone, codes, map, option_map, string_bytes};
ghost use Rattle.mob_arguments.specs.Arguments.{Takes, option_value};
ghost use Rattle.mob_near_run.specs.CommandLine.{near_command};

use mob_arguments::given;
use std::alloc::{AllocError, Global};

// The values of the options, borrowed from the arguments.
#[derive(Drop, Clone, Copy)]
pub struct Values<'a> {
    pub count: Option<&'a str>,
    pub epoch: Option<&'a str>,
    pub to: Option<&'a str>,
    pub wide: Option<&'a str>,
}

/// The value of each option, or `None` exactly if the command does not take the arguments. An
/// option that is not given has no value. The only error is a failed allocation.
#[tactic(auto, using(crate::proofs::Facts::command_is_free))]
pub fn values_in<'a>(alloc: Global, words: &'a [String]) -> Result<Option<Values<'a>>, AllocError>
    ensures taken { IfOk result (λ o. IfSome o (λ v. Takes near_command (map string_bytes words.entry.now))) }
    ensures refused { IfOk result (λ o. IsNone o → Takes near_command (map string_bytes words.entry.now) → ⊥) }
    ensures count { IfOk result (λ o. IfSome o (λ v. option_map (λ s. s.now) v.count ≡ option_value near_command (codes "k") (map string_bytes words.entry.now))) }
    ensures epoch { IfOk result (λ o. IfSome o (λ v. option_map (λ s. s.now) v.epoch ≡ option_value near_command (codes "epoch") (map string_bytes words.entry.now))) }
    ensures to { IfOk result (λ o. IfSome o (λ v. option_map (λ s. s.now) v.to ≡ option_value near_command (codes "to") (map string_bytes words.entry.now))) }
    ensures wide { IfOk result (λ o. IfSome o (λ v. option_map (λ s. s.now) v.wide ≡ option_value near_command (codes "wide") (map string_bytes words.entry.now))) }
{
    let Some(matches) = given(alloc, "mobnear", &["k", "to", "epoch"], &["wide"], words)? else {
        return Ok(None);
    };
    Ok(Some(Values {
        count: matches.get_str("k"),
        epoch: matches.get_str("epoch"),
        to: matches.get_str("to"),
        wide: matches.get_str("wide"),
    }))
}
