//! The values that arguments give to the options.
ghost use Rattle.std.specs.Prelude.{◌≡◌, IfOk, IfSome, IsNone, codes, map, option_map, string_bytes};
ghost use Rattle.mob_arguments.specs.Arguments.{Takes, option_value};
ghost use Rattle.mob_tile_run.specs.CommandLine.{tile_command};

use mob_arguments::given;
use std::alloc::{AllocError, Global};

// The values of the options, borrowed from the arguments.
#[derive(Drop, Clone, Copy)]
pub struct Values<'a> {
    pub size: Option<&'a str>,
    pub width: Option<&'a str>,
    pub near: Option<&'a str>,
    pub workers: Option<&'a str>,
    pub epoch: Option<&'a str>,
}

/// The value of each option, or `None` if the command does not take the arguments. The only error
/// is a failed allocation.
pub fn values_in<'a>(alloc: Global, words: &'a [String]) -> Result<Option<Values<'a>>, AllocError>
    ensures taken { IfOk result (λ o. IfSome o (λ v. Takes tile_command (map string_bytes words.entry.now))) }
    ensures refused { IfOk result (λ o. IsNone o → Takes tile_command (map string_bytes words.entry.now) → ⊥) }
    ensures size { IfOk result (λ o. IfSome o (λ v. option_map (λ s. s.now) v.size ≡ option_value tile_command (codes "size") (map string_bytes words.entry.now))) }
    ensures width { IfOk result (λ o. IfSome o (λ v. option_map (λ s. s.now) v.width ≡ option_value tile_command (codes "width") (map string_bytes words.entry.now))) }
    ensures near { IfOk result (λ o. IfSome o (λ v. option_map (λ s. s.now) v.near ≡ option_value tile_command (codes "near") (map string_bytes words.entry.now))) }
    ensures workers { IfOk result (λ o. IfSome o (λ v. option_map (λ s. s.now) v.workers ≡ option_value tile_command (codes "workers") (map string_bytes words.entry.now))) }
    ensures epoch { IfOk result (λ o. IfSome o (λ v. option_map (λ s. s.now) v.epoch ≡ option_value tile_command (codes "epoch") (map string_bytes words.entry.now))) }
{
    let Some(matches) = given(
        alloc,
        "mobtile",
        &["size", "width", "near", "workers", "epoch"],
        &[],
        words,
    )?
    else {
        return Ok(None);
    };
    Ok(Some(Values {
        size: matches.get_str("size"),
        width: matches.get_str("width"),
        near: matches.get_str("near"),
        workers: matches.get_str("workers"),
        epoch: matches.get_str("epoch"),
    }))
}
