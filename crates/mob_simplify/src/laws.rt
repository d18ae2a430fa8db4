//! Laws of every simplified moving point. No code runs here.

ghost use Rattle.std.specs.Prelude.{◌≡◌, ◌≤◌, true, List};
ghost use Rattle.mob_ratio.specs.Ratio.{Ratio, ◌*ℚ◌};
ghost use Rattle.mob_ratio.specs.Order.{before, up_to};
ghost use Rattle.mob_ratio.specs.Sign.{nil};
ghost use Rattle.mob_slice.specs.Lines.{plane_value_of, plane_continued};
ghost use Rattle.mob_slice.specs.Slices.{value_at, IsNormal};
ghost use Rattle.mob_slice.specs.declared.line.PlaneLine.{PlaneLine};
ghost use Rattle.mob_slice.specs.declared.slice.Slice.{Slice};
ghost use Rattle.mob_near.specs.Distances.{distance_squared};
ghost use Rattle.mob_simplify.specs.Runs.{RunOf, AreRuns};
ghost use Rattle.mob_simplify.specs.BreaksOf.{HaveBreaks, IsBreakOf, printed_instants};
ghost use Rattle.mob_simplify.specs.Thinned.{IsThin, AreNear};

/// Each list of slices has one list of runs with their kept breaks.
pub fn one_list_of_runs()
    ensures some { (d : Ratio) (slices : List (Slice PlaneLine)) → (runs : List RunOf) × AreRuns d runs slices }
    ensures one { (d : Ratio) (slices : List (Slice PlaneLine)) (a b : List RunOf) → AreRuns d a slices → AreRuns d b slices → a ≡ b }
{}

/// A moving point has one simplification. At each instant it is within the distance of the point,
/// and it is defined exactly where the point is; with the distance 0 it is the point.
pub fn one_simplified()
    ensures one { (d : Ratio) (slices a b : List (Slice PlaneLine)) → IsThin d slices a → IsThin d slices b → a ≡ b }
    ensures near { (d : Ratio) (slices thin : List (Slice PlaneLine)) → IsThin d slices thin → (t : Ratio) → AreNear (d *ℚ d) (value_at plane_value_of thin t) (value_at plane_value_of slices t) }
    ensures same { (slices thin : List (Slice PlaneLine)) → IsNormal (λ c. c.from) (λ c. c.to) plane_continued slices → IsThin nil slices thin → thin ≡ slices }
{}

/// The simplified moving point has only breaks of the point, and prints no more instants.
pub fn no_new_breaks()
    ensures breaks { (d : Ratio) (slices thin : List (Slice PlaneLine)) → IsNormal (λ c. c.from) (λ c. c.to) plane_continued slices → IsThin d slices thin → HaveBreaks (IsBreakOf slices) thin }
    ensures instants { (d : Ratio) (slices thin : List (Slice PlaneLine)) → IsNormal (λ c. c.from) (λ c. c.to) plane_continued slices → IsThin d slices thin → printed_instants thin ≤ printed_instants slices }
{}

/// Why it is enough to test breaks: the squared distance of two straight courses is convex in time.
/// If it is at most D at both ends of a span, it is at most D on all of it.
pub fn between_breaks()
    ensures convex { (l u t : Ratio) → before l u ≡ true → (k c : PlaneLine) (D : Ratio) → up_to l t ≡ true → up_to t u ≡ true → up_to (distance_squared k.from c.from) D ≡ true → up_to (distance_squared k.to c.to) D ≡ true → up_to (distance_squared (plane_value_of k l u t) (plane_value_of c l u t)) D ≡ true }
{}
