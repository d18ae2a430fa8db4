//! The law of every run of mobtile. No code runs here.
ghost use Rattle.std.specs.Prelude.{◌≡◌, ◌≢◌, ℕ, List, Option};
ghost use Rattle.mob_value.specs.declared.value.Value.{Value};
ghost use Rattle.mob_grid.specs.Tiles.{IsGrid};
ghost use Rattle.mob_list.specs.declared.fault.Fault.{Fault};
ghost use Rattle.mob_list.specs.declared.fault.Fault.TheVariants.{NoMemory};
ghost use Rattle.mob_pairs.specs.declared.fault.PairCause.{PairCause};
ghost use Rattle.mob_trips.specs.Rows.{Trip};
ghost use Rattle.mob_tile_run.specs.TileAnswers.{AreSameButWorkers, TileWrites, TileFails};
ghost use Rattle.mob_tile_run.specs.declared.settings.TileSettings.{TileSettings};

/// The number of workers changes nothing: settings that differ only in it ask for one text or for
/// one fault, never for both, apart from out of memory.
pub fn workers_change_nothing()
    ensures text { (a b : TileSettings) (ids : List Value) (trips : List (Option Trip)) (t u : List ℕ) → IsGrid a.grid → AreSameButWorkers a b → TileWrites a ids trips t → TileWrites b ids trips u → t ≡ u }
    ensures fault { (a b : TileSettings) (trips : List (Option Trip)) (e f : Fault PairCause) → AreSameButWorkers a b → e ≢ NoMemory → f ≢ NoMemory → TileFails a trips e → TileFails b trips f → e ≡ f }
    ensures apart { (a b : TileSettings) (ids : List Value) (trips : List (Option Trip)) (t : List ℕ) (f : Fault PairCause) → AreSameButWorkers a b → f ≢ NoMemory → TileWrites a ids trips t → TileFails b trips f → ⊥ }
{}
