//! Laws of nearest rows. No code runs here.
ghost use Rattle.std.specs.Prelude.{◌≡◌, ℕ, List, Option, take};
ghost use Rattle.mob_ratio.specs.Ratio.{Ratio};
ghost use Rattle.mob_knn.specs.Nearest.{AreAllRows, AreNearest, Asked, HasApproach, TripOf};

/// The nearest rows are the first k of all rows that have an approach, ordered by approach and then
/// by row. There is one such list.
pub fn nearest_rows()
    ensures cut { (trips : List (Option TripOf)) (asked : Asked) (k : ℕ) (all : List (ℕ × Ratio)) → AreAllRows (HasApproach trips asked) all → AreNearest trips asked k (take k all) }
    ensures are { (trips : List (Option TripOf)) (asked : Asked) (k : ℕ) (all rs : List (ℕ × Ratio)) → AreAllRows (HasApproach trips asked) all → AreNearest trips asked k rs → rs ≡ take k all }
    ensures one { (trips : List (Option TripOf)) (asked : Asked) (k : ℕ) (rs os : List (ℕ × Ratio)) → AreNearest trips asked k rs → AreNearest trips asked k os → rs ≡ os }
{}
