//! Laws of every grid, range and split. No code runs here.
ghost use Rattle.std.specs.Prelude.{◌≡◌, ◌≢◌, ◌↔◌, true, Some, List, Ok, Err};
ghost use Rattle.std.specs.List.{AllByRecursion};
ghost use Rattle.mob_ratio.specs.Ratio.{Ratio};
ghost use Rattle.mob_span.specs.Span.{SpanOf, InSpan};
ghost use Rattle.mob_plane.specs.declared.point.Point.{Point};
ghost use Rattle.mob_stbox.specs.Areas.{InArea};
ghost use Rattle.mob_stbox.specs.declared.area.Area.{Area};
ghost use Rattle.mob_slice.specs.Slices.{value_at};
ghost use Rattle.mob_slice.specs.Lines.{plane_value_of};
ghost use Rattle.mob_slice.specs.declared.slice.Slice.{Slice};
ghost use Rattle.mob_slice.specs.declared.line.PlaneLine.{PlaneLine};
ghost use Rattle.mob_grid.specs.Tiles.{GridOf, IsGrid, InTile, in_tile, tile_of, InRange, range_of, IsLeastShared, least_shared};
ghost use Rattle.mob_tile.specs.Split.{IsSplit, HasPartAt, OnRange, SplitAnswer};
ghost use Rattle.mob_list.specs.declared.fault.Fault.{Fault};
ghost use Rattle.mob_list.specs.declared.fault.Fault.TheVariants.{NoMemory};
ghost use Rattle.mob_tile.specs.declared.splitting.SplitCause.{SplitCause};
ghost use Rattle.mob_grid.specs.declared.tile.Tile.{Tile as TileOf};
ghost use Rattle.mob_grid.specs.declared.tile.TileRange.{TileRange};

/// Each point is in exactly one tile at each instant, and the test of membership is correct.
pub fn one_tile()
    ensures some { (g : GridOf) (t : Ratio) (p : Point) → IsGrid g → InTile g (tile_of g t p) t p }
    ensures only { (g : GridOf) (a : TileOf) (t : Ratio) (p : Point) → IsGrid g → InTile g a t p → a ≡ tile_of g t p }
    ensures test { (g : GridOf) (a : TileOf) (t : Ratio) (p : Point) → (in_tile g a t p ≡ true) ↔ InTile g a t p }
{}

/// That tile is in the range of each rectangle and span that contain the point and the instant.
pub fn boxes_reach_their_tiles()
    ensures reach { (g : GridOf) (a : Area) (s : SpanOf) (t : Ratio) (p : Point) → IsGrid g → InArea a p → InSpan s t → InRange (range_of g a s) (tile_of g t p) }
{}

/// Two ranges that share a tile have one least shared tile.
pub fn one_least_shared_tile()
    ensures least { (r s : TileRange) (tile : TileOf) → InRange r tile → InRange s tile → IsLeastShared r s (least_shared r s) }
    ensures one { (r s : TileRange) (a b : TileOf) → IsLeastShared r s a → IsLeastShared r s b → a ≡ b }
{}

/// At each instant of a value one part of its split is defined, that of the tile in which the value
/// is then, and it has the value. No other part is defined then.
pub fn one_part_at_each_instant()
    ensures there { (g : GridOf) (a : List (Slice PlaneLine)) (parts : List (TileOf × List (Slice PlaneLine))) (t : Ratio) (p : Point) → IsGrid g → IsSplit g a parts → value_at plane_value_of a t ≡ Some p → HasPartAt (tile_of g t p) t p parts }
    ensures only { (g : GridOf) (a : List (Slice PlaneLine)) (parts : List (TileOf × List (Slice PlaneLine))) (t : Ratio) (p : Point) → IsGrid g → IsSplit g a parts → AllByRecursion (λ q. value_at plane_value_of q.1 t ≡ Some p → (q.0 ≡ tile_of g t p) × (value_at plane_value_of a t ≡ Some p)) parts }
{}

/// A value has one split.
pub fn one_split()
    ensures one { (g : GridOf) (a : List (Slice PlaneLine)) (ps qs : List (TileOf × List (Slice PlaneLine))) → IsGrid g → IsSplit g a ps → IsSplit g a qs → ps ≡ qs }
{}

/// `split` has one answer for a value, apart from out of memory: parts or one refusal, never both.
pub fn one_answer()
    ensures apart { (g : GridOf) (a : List (Slice PlaneLine)) (parts : List (TileOf × List (Slice PlaneLine))) (f : Fault SplitCause) → f ≢ NoMemory → OnRange g a (λ quotients range. SplitAnswer g a quotients range (Ok parts)) → OnRange g a (λ quotients range. SplitAnswer {V = List (TileOf × List (Slice PlaneLine))} g a quotients range (Err f)) → ⊥ }
    ensures one { (g : GridOf) (a : List (Slice PlaneLine)) (e f : Fault SplitCause) → e ≢ NoMemory → f ≢ NoMemory → OnRange g a (λ quotients range. SplitAnswer {V = List (TileOf × List (Slice PlaneLine))} g a quotients range (Err e)) → OnRange g a (λ quotients range. SplitAnswer {V = List (TileOf × List (Slice PlaneLine))} g a quotients range (Err f)) → e ≡ f }
{}
