//! A grid, and the tiles that a box reaches.
ghost use Rattle.std.specs.Prelude.{◌≡◌, ◌↔◌, ◌⊎◌, true, IsNone, IfSome, IfOk};
ghost use Rattle.mob_ratio.specs.Ratio.{◌<ℚ◌, ◌≤ℚ◌};
ghost use Rattle.mob_ratio.specs.Sign.{nil};
ghost use Rattle.mob_frac.specs.Formula.{IsFormula};
ghost use Rattle.mob_slice.specs.Computed.{IsComputed};
ghost use Rattle.mob_slice.specs.declared.formula.Formula.TheVariants.{F2};
ghost use Rattle.mob_stbox.specs.Boxes.{is_whole};
ghost use Rattle.mob_grid.specs.Tiles.{GridOf, IsGrid, tile_of, InRange, range_of, range_parts, OnSides};
ghost use Rattle.mob_tile.specs.Split.{IsSplit, OnRange, SplitAnswer, IsLimited};

use crate::splitting::{SplitFault, split_by};
use mob_frac::{Frac, Overflow};
use mob_grid::{Tile, TileRange, band_within, floor_over, is_positive};
use mob_plane::Point;
use mob_slice::{Formula, Moving, PlaneLine};
use mob_span::Span;
use mob_stbox::{Area, StBox};
use std::alloc::Global;
use std::marker::Model;

/// The sides of tiles: a length for x and y, and a duration in seconds. Both are positive.
#[derive(Clone, Copy, Debug)]
pub struct Grid {
    size: Frac,
    width: Frac,
}

impl Model for Grid {
    ghost use Rattle.mob_grid.specs.Tiles.{GridOf, IsGrid};

    ghost Value = { GridOf };

    ghost view = { λ g. record { size = g.size; width = g.width } };

    ghost invariant = { λ g. IsGrid (record { size = g.size; width = g.width }) };

    ghost inverse = { λ g. record { size = g.size; width = g.width } };
}

impl Grid {
    /// The grid with these sides; `None` exactly if one of them is not positive.
    pub fn new(size: Frac, width: Frac) -> Option<Grid>
        ensures none { IsNone result ↔ ((size ≤ℚ nil) ⊎ (width ≤ℚ nil)) }
        ensures value { IfSome result (λ g. g ≡ record { size = size; width = width }) }
        ensures sides { IfSome result IsGrid }
    {
        if !is_positive(&size) {
            return None;
        }
        if !is_positive(&width) {
            return None;
        }
        Some(Grid { size, width })
    }

    /// The side in x and y.
    pub fn size(&self) -> &Frac
        ensures value { result.now ≡ self.now.size }
        ensures positive { nil <ℚ result.now }
    {
        &self.size
    }

    /// The side in time.
    pub fn width(&self) -> &Frac
        ensures value { result.now ≡ self.now.width }
        ensures positive { nil <ℚ result.now }
    {
        &self.width
    }

    /// The tile of `p` at `t`, which is in the range.
    pub(crate) fn tile_at(&self, range: &TileRange, p: &Point, t: &Frac) -> Tile
        requires within { InRange range.now (tile_of self.now t.now p.now) }
        ensures value { result ≡ tile_of self.now t.now p.now }
    {
        let size = self.size();
        Tile {
            i: band_within(size, &p.x, range.low.i, range.high.i),
            j: band_within(size, &p.y, range.low.j, range.high.j),
            k: band_within(self.width(), t, range.low.k, range.high.k),
        }
    }

    // The six quotients, and the tiles between their floors.
    fn between(&self, area: &Area, time: &Span) -> Result<TileRange, Overflow>
        ensures value { IsFormula (range_parts self.now area.now time.now) (range_of self.now area.now time.now) result }
    {
        let size = self.size();
        let width = self.width();
        let west = floor_over(&area.xmin, size)?;
        let south = floor_over(&area.ymin, size)?;
        let first = floor_over(time.lower(), width)?;
        let east = floor_over(&area.xmax, size)?;
        let north = floor_over(&area.ymax, size)?;
        let last = floor_over(time.upper(), width)?;
        Ok(TileRange {
            low: Tile {
                i: west,
                j: south,
                k: first,
            },
            high: Tile {
                i: east,
                j: north,
                k: last,
            },
        })
    }

    #[tactic(auto, unfolding(mob_stbox::specs::Boxes::is_whole))]
    /// All tiles that a box reaches: those between the floors of its sides and ends, divided by
    /// those of a tile. Ends that are not included count as if they were. The error is F2, exactly
    /// if a quotient does not fit.
    pub fn range(&self, b: &StBox) -> Result<TileRange, Formula>
        requires whole { is_whole b.now ≡ true }
        ensures value { OnSides b.now (λ a s. IsComputed F2 (range_parts self.now a s) (range_of self.now a s) result) }
    {
        let Some(area) = b.space() else {
            unreachable!();
        };
        let Some(time) = b.time() else {
            unreachable!();
        };
        match self.between(area, time) {
            Ok(range) => Ok(range),
            Err(_) => Err(Formula::F2),
        }
    }
    /// The parts of a moving point in the tiles, in ascending order of the tiles: all tiles in
    /// which it is at some instant, each with the part there.
    ///
    /// `Passed` and `Limit` come exactly if they must, in this order: F2, if a quotient of the
    /// range of the box of `a` does not fit; the limit, if that range has more than 10,000 tiles;
    /// then the first part of F2, F3 or F1 that does not fit, slice by slice. A failed allocation
    /// can come only after the limit.
    pub fn split(
        &self,
        alloc: Global,
        a: &Moving<PlaneLine>,
    ) -> Result<Vec<(Tile, Moving<PlaneLine>)>, SplitFault>
        ensures split { IfOk result (λ v. IsSplit self.now a.now v.items) }
        ensures refusals { OnRange self.now a.now (λ quotients range. SplitAnswer self.now a.now quotients range result) }
        ensures limits { OnRange self.now a.now (λ quotients range. IsLimited quotients range result) }
    {
        split_by(alloc, self, a)
    }
}
