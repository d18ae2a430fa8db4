//! Pieces of slices, each in one tile.
ghost use Rattle.std.specs.Prelude.{◌≡◌, true, [], ◌∷◌, ◌++◌, map, OnOk, IfOk};
ghost use Rattle.std.specs.List.{flat_map, AllByRecursion};
ghost use Rattle.mob_span.specs.Neighbours.{is_inside};
ghost use Rattle.mob_slice.specs.Slices.{IsSound, IsRisingInTime};
ghost use Rattle.mob_slice.specs.Cut.{slice_value, slice_parts};
ghost use Rattle.mob_slice.specs.Sides.{at_ends, HasValues};
ghost use Rattle.mob_slice.specs.Lines.{plane_value_of, plane_parts_of};
ghost use Rattle.mob_slice.specs.Entries.{IsJudged, IsMadeBy, IsMadeByAll};
ghost use Rattle.mob_slice.specs.declared.formula.Formula.TheVariants.{F1, F2, F3};
ghost use Rattle.mob_cells.specs.Roots.{IsLevel, roots, roots_parts};
ghost use Rattle.mob_tile.specs.Edges.{t_edges, differences, tile_cuts_of, edge_of, tile_edges_parts, entry_of_values, entries_of_slice};
ghost use Rattle.mob_tile.specs.Pieces.{least_of, greatest_of, HasOneTile, Reaches, IsInItsTile, ArePiecesOf, AreTilePieces, AreTileCells, IsPushed};

use crate::cuts::{differences, roots_of, times};
use crate::grid::Grid;
use mob_cells::{Ends, append, cells_at, sort_instants};
use mob_frac::Frac;
use mob_grid::{Tile, TileRange};
use mob_list::fault::Fault;
use mob_plane::{Point, greater, smaller};
use mob_slice::{Formula, PlaneLine, Slice, cut};
use mob_span::Span;
use std::alloc::{AllocError, Global};

/// A piece of a moving point, with its tile.
#[derive(Drop)]
pub struct TilePiece {
    /// The tile in which all of it lies.
    pub tile: Tile,
    /// The piece.
    pub slice: Slice<PlaneLine>,
}

// The least corner of the bounding rectangle of two points.
fn least(p: &Point, q: &Point) -> Point
    ensures value { result ≡ least_of p.now q.now }
{
    Point {
        x: smaller(&p.x, &q.x),
        y: smaller(&p.y, &q.y),
    }
}

// Its greatest corner.
fn greatest(p: &Point, q: &Point) -> Point
    ensures value { result ≡ greatest_of p.now q.now }
{
    Point {
        x: greater(&p.x, &q.x),
        y: greater(&p.y, &q.y),
    }
}

// Where a slice may be cut.
struct Edges {
    functions: Vec<Ends>,
    times: Vec<Frac>,
}

// The edges of a slice: the differences in x and y, and the edges of time.
fn edges_of(
    alloc: Global,
    grid: &Grid,
    range: &TileRange,
    slice: &Slice<PlaneLine>,
) -> Result<Edges, Fault<Formula>>
    requires sound { IsSound (λ c. c.from) (λ c. c.to) slice.now }
    requires reaches { Reaches grid.now range.now slice.now }
    ensures made { IsMadeBy F2 (tile_edges_parts grid.now slice.now) (λ e. (e.functions.items ≡ differences grid.now slice.now) × (e.times.items ≡ map (edge_of grid.now.width) (t_edges grid.now slice.now))) result }
{
    let from = &slice.course.from;
    let to = &slice.course.to;
    let low = grid.tile_at(range, &least(from, to), slice.span.lower());
    let high = grid.tile_at(range, &greatest(from, to), slice.span.upper());
    let size = grid.size();
    let mut functions = differences(alloc, size, &from.x, &to.x, low.i, high.i)?;
    let more = differences(alloc, size, &from.y, &to.y, low.j, high.j)?;
    let times = times(alloc, grid.width(), low.k, high.k)?;
    append(&mut functions, more)?;
    Ok(Edges { functions, times })
}

// The instants at which the slice is cut.
fn cuts_on(alloc: Global, span: &Span, edges: Edges) -> Result<Vec<Frac>, Fault<Formula>>
    requires level { AllByRecursion (IsLevel span.now) edges.functions.items }
    ensures made { IsMadeBy F3 (roots_parts span.now edges.functions.items) (λ v. v.items ≡ roots span.now edges.functions.items ++ edges.times.items) result }
{
    let Edges { functions, times } = edges;
    let mut cuts = roots_of(alloc, span, functions.as_slice())?;
    append(&mut cuts, times)?;
    Ok(cuts)
}

// The cells of a slice, each of which is in one tile.
fn cells_of(
    alloc: Global,
    grid: &Grid,
    slice: &Slice<PlaneLine>,
    cuts: Vec<Frac>,
) -> Result<Vec<Span>, AllocError>
    requires sound { IsSound (λ c. c.from) (λ c. c.to) slice.now }
    requires cuts { cuts.items ≡ tile_cuts_of grid.now slice.now }
    ensures cells { IfOk result (λ v. AreTileCells grid.now slice.now (tile_cuts_of grid.now slice.now) v.items) }
{
    // The clauses of these two calls say that the sides of a tile are positive.
    let _size = grid.size();
    let _width = grid.width();
    let mut cuts = cuts;
    sort_instants(&mut cuts)?;
    cells_at(alloc, &slice.span, cuts.as_slice())
}

// The piece of a slice on a cell within one tile.
fn piece_on(
    alloc: Global,
    grid: &Grid,
    range: &TileRange,
    slice: &Slice<PlaneLine>,
    cell: &Span,
) -> Result<TilePiece, Fault<Formula>>
    requires holds { IsSound (λ c. c.from) (λ c. c.to) slice.now × (is_inside slice.now.span cell.now ≡ true) }
    requires reaches { Reaches grid.now range.now slice.now }
    requires one { HasOneTile grid.now slice.now cell.now }
    ensures piece { IsMadeBy F1 (at_ends (slice_parts plane_parts_of slice.now) cell.now) (λ q. HasValues plane_value_of (λ c. c.from) (λ c. c.to) (slice_value plane_value_of slice.now) cell.now q.slice × IsInItsTile grid.now q) result }
{
    let part = cut(alloc, slice, cell)?;
    let tile = grid.tile_at(
        range,
        &least(&part.course.from, &part.course.to),
        cell.lower(),
    );
    Ok(TilePiece { tile, slice: part })
}

// Adds a piece.
fn push_piece(
    alloc: Global,
    out: &mut Vec<TilePiece>,
    grid: &Grid,
    range: &TileRange,
    slice: &Slice<PlaneLine>,
    cell: &Span,
) -> Result<(), Fault<Formula>>
    requires holds { IsSound (λ c. c.from) (λ c. c.to) slice.now × (is_inside slice.now.span cell.now ≡ true) }
    requires reaches { Reaches grid.now range.now slice.now }
    requires one { HasOneTile grid.now slice.now cell.now }
    ensures pushed { IsMadeBy F1 (at_ends (slice_parts plane_parts_of slice.now) cell.now) (λ _. IsPushed grid.now slice.now cell.now out.old.items out.new.items) result }
{
    let piece = piece_on(alloc, grid, range, slice, cell)?;
    out.push(piece)?;
    Ok(())
}

// The pieces of a slice on its cells.
fn pieces_at(
    alloc: Global,
    grid: &Grid,
    range: &TileRange,
    slice: &Slice<PlaneLine>,
    cells: &[Span],
) -> Result<Vec<TilePiece>, Fault<Formula>>
    requires sound { IsSound (λ c. c.from) (λ c. c.to) slice.now }
    requires reaches { Reaches grid.now range.now slice.now }
    requires cells { AreTileCells grid.now slice.now (tile_cuts_of grid.now slice.now) cells.now }
    ensures pieces { IsMadeByAll (entry_of_values grid.now slice.now ∷ []) (λ v. ArePiecesOf grid.now slice.now v.items) result }
{
    let mut out = Vec::new(alloc);
    for cell in cells {
        push_piece(alloc, &mut out, grid, range, slice, cell)?;
    }
    Ok(out)
}

// The pieces of a slice.
fn on_slice(
    alloc: Global,
    grid: &Grid,
    range: &TileRange,
    slice: &Slice<PlaneLine>,
) -> Result<Vec<TilePiece>, Fault<Formula>>
    requires sound { IsSound (λ c. c.from) (λ c. c.to) slice.now }
    requires reaches { Reaches grid.now range.now slice.now }
    ensures pieces { IsMadeByAll (entries_of_slice grid.now slice.now) (λ v. ArePiecesOf grid.now slice.now v.items) result }
{
    // The clauses of these two calls say that the sides of a tile are positive.
    let _size = grid.size();
    let _width = grid.width();
    let edges = edges_of(alloc, grid, range, slice)?;
    let cuts = cuts_on(alloc, &slice.span, edges)?;
    let cells = cells_of(alloc, grid, slice, cuts)?;
    pieces_at(alloc, grid, range, slice, cells.as_slice())
}

/// The pieces of all slices, in order of time. The fault names the first formula of a slice with a
/// part that does not fit.
pub fn pieces_of(
    alloc: Global,
    grid: &Grid,
    range: &TileRange,
    slices: &[Slice<PlaneLine>],
) -> Result<Vec<TilePiece>, Fault<Formula>>
    requires ordered { IsRisingInTime (λ c. c.from) (λ c. c.to) slices.now }
    requires reach { AllByRecursion (Reaches grid.now range.now) slices.now }
    ensures pieces { IfOk result (λ v. AreTilePieces grid.now slices.now v.items) }
    ensures first { IsJudged (flat_map (entries_of_slice grid.now) slices.now) result }
{
    let mut out = Vec::new(alloc);
    for slice in slices {
        let more = on_slice(alloc, grid, range, slice)?;
        append(&mut out, more)?;
    }
    Ok(out)
}
