//! The split of a moving point by the tiles of a grid.
ghost use Rattle.std.specs.Prelude.{IfOk};
ghost use Rattle.std.specs.List.{flat_map, AllByRecursion};
ghost use Rattle.mob_slice.specs.Entries.{IsJudged};
ghost use Rattle.mob_tile.specs.Edges.{entries_of_slice};
ghost use Rattle.mob_tile.specs.Pieces.{Reaches};
ghost use Rattle.mob_tile.specs.Split.{IsSplit, OnRange, SplitAnswer, IsLimited};

use crate::grid::Grid;
use crate::groups::{parts_of, sort_pieces};
use crate::pieces::pieces_of;
use mob_grid::{Tile, TileRange};
use mob_list::fault::Fault;
use mob_slice::{Formula, Moving, PlaneLine};
use mob_value::box_of;
use std::alloc::Global;

/// What keeps a moving point from being split.
#[derive(Clone, Copy, Debug, PartialEq, Eq)]
pub enum SplitCause {
    /// A part of this formula does not fit.
    Passed {
        /// The formula.
        formula: Formula,
    },
    /// The box of the value reaches more than 10,000 tiles.
    Limit,
}

/// An allocation failed.
pub type SplitFault = Fault<SplitCause>;

// The parts in the tiles of a range that contains them all.
fn split_in(
    alloc: Global,
    grid: &Grid,
    range: &TileRange,
    a: &Moving<PlaneLine>,
) -> Result<Vec<(Tile, Moving<PlaneLine>)>, Fault<Formula>>
    requires reach { AllByRecursion (Reaches grid.now range.now) a.now }
    ensures split { IfOk result (λ v. IsSplit grid.now a.now v.items) }
    ensures first { IsJudged (flat_map (entries_of_slice grid.now) a.now) result }
{
    // The clauses of these two calls say that the sides of a tile are positive.
    let _size = grid.size();
    let _width = grid.width();
    let mut pieces = pieces_of(alloc, grid, range, a.slices())?;
    sort_pieces(&mut pieces)?;
    Ok(parts_of(alloc, pieces.as_slice())?)
}

/// The parts of a moving point in the tiles of a grid: `Grid::split`.
pub fn split_by(
    alloc: Global,
    grid: &Grid,
    a: &Moving<PlaneLine>,
) -> Result<Vec<(Tile, Moving<PlaneLine>)>, SplitFault>
    ensures split { IfOk result (λ v. IsSplit grid.now a.now v.items) }
    ensures refusals { OnRange grid.now a.now (λ quotients range. SplitAnswer grid.now a.now quotients range result) }
    ensures limits { OnRange grid.now a.now (λ quotients range. IsLimited quotients range result) }
{
    // The clauses of these two calls say that the sides of a tile are positive.
    let _size = grid.size();
    let _width = grid.width();
    let range = match grid.range(&box_of(a)) {
        Ok(range) => range,
        Err(passed) => {
            return Err(Fault::Because(SplitCause::Passed { formula: passed }));
        }
    };
    if range.has_many() {
        return Err(Fault::Because(SplitCause::Limit));
    }
    match split_in(alloc, grid, &range, a) {
        Ok(parts) => Ok(parts),
        Err(Fault::Because(formula)) => Err(Fault::Because(SplitCause::Passed { formula })),
        Err(Fault::NoMemory) => Err(Fault::NoMemory),
    }
}
