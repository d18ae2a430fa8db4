//! The settings of a run, read from the values of its options.
ghost use Rattle.std.specs.Prelude.{Option, IfOk, IfSome, IsNone, map, option_map, string_bytes};
ghost use Rattle.mob_ratio.specs.Ratio.{Ratio};
ghost use Rattle.mob_grid.specs.Tiles.{GridOf};
ghost use Rattle.mob_arguments.specs.Arguments.{IsRequired};
ghost use Rattle.mob_tile_run.specs.CommandLine.{IsNear, IsSide, IsSides, TileSays};
ghost use Rattle.mob_tile_run.specs.declared.settings.TileSettings.{TileSettings as SettingsSeen};

use crate::settings::TileSettings;
use crate::values::values_in;
use mob_arguments::{distance_in, epoch_of, workers_of};
use mob_frac::Frac;
use mob_numeral::read_number;
use mob_tile::{Grid, is_positive};
use std::alloc::{AllocError, Global};

// The number of a text, if it is positive.
fn side_in(text: &str) -> Option<Frac>
    ensures some { IfSome result (λ d. IsSide text.now d) }
    ensures none { IsNone result → (d : Ratio) → IsSide text.now d → ⊥ }
{
    let Ok(number) = read_number(text) else {
        return None;
    };
    if !is_positive(&number) {
        return None;
    }
    Some(number)
}

// The side of a tile in the value of an option, which is required.
fn side_of(value: Option<&str>) -> Option<Frac>
    ensures some { IfSome result (λ d. IsRequired IsSide (option_map (λ s. s.now) value.entry) d) }
    ensures none { IsNone result → (d : Ratio) → IsRequired IsSide (option_map (λ s. s.now) value.entry) d → ⊥ }
{
    match value {
        None => None,
        Some(text) => side_in(text),
    }
}

// The grid in the values of `--size` and `--width`.
fn grid_of(size: Option<&str>, width: Option<&str>) -> Option<Grid>
    ensures some { IfSome result (IsSides (option_map (λ s. s.now) size.entry) (option_map (λ s. s.now) width.entry)) }
    ensures none { IsNone result → (g : GridOf) → IsSides (option_map (λ s. s.now) size.entry) (option_map (λ s. s.now) width.entry) g → ⊥ }
{
    let Some(size) = side_of(size) else {
        return None;
    };
    let Some(width) = side_of(width) else {
        return None;
    };
    Grid::new(size, width)
}

// The distance in the value of `--near`; without a value there is none.
fn near_of(value: Option<&str>) -> Option<Option<Frac>>
    ensures some { IfSome result (λ near. IsNear (option_map (λ s. s.now) value.entry) near) }
    ensures none { IsNone result → (near : Option Ratio) → IsNear (option_map (λ s. s.now) value.entry) near → ⊥ }
{
    match value {
        None => Some(None),
        Some(text) => match distance_in(text) {
            Some(near) => Some(Some(near)),
            None => None,
        },
    }
}

/// The settings that the arguments give, the first of which is the program's name: `--size S` and
/// `--width W` with positive numbers, `--near D` with a number that is not negative, `--workers N`
/// with a whole number from 1 to 64, and `--epoch DATE`. `--size` and `--width` are required, and
/// each option may be given once.
///
/// `None` exactly if the arguments are not accepted. The only error is a failed allocation.
pub fn settings(alloc: Global, words: &[String]) -> Result<Option<TileSettings>, AllocError>
    ensures said { IfOk result (λ o. IfSome o (TileSays (map string_bytes words.now))) }
    ensures refused { IfOk result (λ o. IsNone o → (s : SettingsSeen) → TileSays (map string_bytes words.now) s → ⊥) }
{
    let Some(values) = values_in(alloc, words)? else {
        return Ok(None);
    };
    let Some(grid) = grid_of(values.size, values.width) else {
        return Ok(None);
    };
    let Some(near) = near_of(values.near) else {
        return Ok(None);
    };
    let Some(workers) = workers_of(values.workers) else {
        return Ok(None);
    };
    let Some(epoch) = epoch_of(values.epoch) else {
        return Ok(None);
    };
    Ok(Some(TileSettings {
        grid,
        near,
        workers,
        epoch,
    }))
}
