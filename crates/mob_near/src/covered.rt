//! Nearness of two moving points with covers. A walk over the covers that share time skips two runs
//! of slices at once if their rectangles cannot matter.
ghost use Rattle.std.specs.Prelude.{◌≡◌, ◌+◌, ◌≤◌, true, false, Some, [], length, IfOk, IfSome};
ghost use Rattle.mob_ratio.specs.Order.{up_to};
ghost use Rattle.mob_ratio.specs.Ratio.{◌*ℚ◌};
ghost use Rattle.mob_ratio.specs.Sign.{nil};
ghost use Rattle.mob_span.specs.Meets.{shared_pieces};
ghost use Rattle.mob_span.specs.Pieces.{PiecesAreClear};
ghost use Rattle.mob_slice.specs.Entries.{IsJudged};
ghost use Rattle.mob_slice.specs.Lines.{plane_value_of};
ghost use Rattle.mob_slice.specs.Sides.{Slices, pieces};
ghost use Rattle.mob_slice.specs.Slices.{IsRisingInTime, value_at};
ghost use Rattle.mob_slice.specs.declared.mode.Mode.TheVariants.{Wide};
ghost use Rattle.mob_lift.specs.Sometime.{IsEver};
ghost use Rattle.mob_near.specs.Approaches.{IsApproach};
ghost use Rattle.mob_legs.specs.Covers.{AreCoversOf, IsRunOf, cover_gap, is_beyond, nearer_of, run_of, some_reach};
ghost use Rattle.mob_near.specs.Distances.{are_within};
ghost use Rattle.mob_legs.specs.Legs.{are_some};
ghost use Rattle.mob_near.specs.Wide.{approach_entries_in, least_approach};

use crate::known::{LastFound, nothing, square_of};
use crate::nearness::{never, share_time};
use crate::wide::{comes_within_directly, gap_between, given, is_past, nearer_directly};
use mob_frac::Frac;
use mob_legs::{Cover, Covers};
use mob_list::fault::Fault;
use mob_slice::{Formula, Moving, Operand, Piece, PlaneLine, Side, Slice};
use mob_span::SharedPieces;
use mob_wide::Exact;
use std::alloc::{AllocError, Global};

// The run of a cover.
#[tactic(auto, using(crate::proofs::Stretches::range_run, crate::proofs::Stretches::run_rises))]
fn run_of<'a>(slices: &'a [Slice<PlaneLine>], cover: &Cover) -> &'a [Slice<PlaneLine>]
    requires rising { IsRisingInTime (λ c. c.from) (λ c. c.to) slices.now }
    requires room { cover.now.start + cover.now.count ≤ length slices.now }
    ensures run { result.now ≡ run_of slices.now cover.now }
    ensures rising { IsRisingInTime (λ c. c.from) (λ c. c.to) result.now }
{
    &slices[cover.start..cover.start + cover.count]
}

// Whether the rectangles of two runs lie beyond the distance `d` of each other. If that cannot be
// decided in `Frac`s, it is false.
#[tactic(auto, using(crate::proofs::Stretches::beyond_east, crate::proofs::Stretches::beyond_west, crate::proofs::Stretches::beyond_north, crate::proofs::Stretches::beyond_south))]
fn are_beyond(d: &Frac, a: &Cover, b: &Cover) -> bool
    ensures beyond { result ≡ true → is_beyond d.now a.now b.now ≡ true }
{
    if is_past(d, &a.xmax, &b.xmin) {
        return true;
    }
    if is_past(d, &b.xmax, &a.xmin) {
        return true;
    }
    if is_past(d, &a.ymax, &b.ymin) {
        return true;
    }
    is_past(d, &b.ymax, &a.ymin)
}

// Whether the squared distance is at most `square`, that of `d`, at some instant that two runs
// share. The walk stops at the first piece that has one. The runs are likely near, so each piece is
// computed without a look at its rectangles.
#[tactic(auto, using(crate::proofs::Stretches::rising_clear, crate::proofs::Stretches::walked_start, crate::proofs::Stretches::held_next, crate::proofs::Stretches::some_next, crate::proofs::Stretches::walked_next, crate::proofs::Stretches::reach_start, crate::proofs::Stretches::piece_missed, crate::proofs::Stretches::piece_hit, crate::proofs::Stretches::pieces_missed))]
fn runs_come_within(
    alloc: Global,
    v: &[Slice<PlaneLine>],
    w: &[Slice<PlaneLine>],
    d: &Frac,
    square: &Exact,
    last: &mut LastFound,
) -> Result<bool, AllocError>
    requires left { IsRisingInTime (λ c. c.from) (λ c. c.to) v.now }
    requires right { IsRisingInTime (λ c. c.from) (λ c. c.to) w.now }
    requires distance { up_to nil d.now ≡ true }
    requires square { square.now ≡ d.now *ℚ d.now }
    ensures value { IfOk result (λ b. b ≡ some_reach square.now (pieces (Slices v.now) (Slices w.now))) }
{
    for met in SharedPieces::new(v, w) {
        let piece = Piece {
            span: met.span,
            left: Side::Moving(met.left),
            right: Side::Moving(met.right),
        };
        let here = comes_within_directly(alloc, &piece, d, square, last)?;
        if here {
            return Ok(true);
        }
    }
    Ok(false)
}

// Whether the squared distance is at most `square`, that of `d`, at some instant that the runs of
// two covers share.
fn stretch_comes_within(
    alloc: Global,
    v: &[Slice<PlaneLine>],
    over_v: &Cover,
    w: &[Slice<PlaneLine>],
    over_w: &Cover,
    d: &Frac,
    square: &Exact,
    last: &mut LastFound,
) -> Result<bool, AllocError>
    requires left { IsRisingInTime (λ c. c.from) (λ c. c.to) v.now }
    requires right { IsRisingInTime (λ c. c.from) (λ c. c.to) w.now }
    requires left_run { IsRunOf v.now over_v.now }
    requires right_run { IsRunOf w.now over_w.now }
    requires distance { up_to nil d.now ≡ true }
    requires square { square.now ≡ d.now *ℚ d.now }
    ensures value { IfOk result (λ b. b ≡ some_reach square.now (pieces (Slices (run_of v.now over_v.now)) (Slices (run_of w.now over_w.now)))) }
{
    if are_beyond(d, over_v, over_w) {
        return Ok(false);
    }
    runs_come_within(alloc, run_of(v, over_v), run_of(w, over_w), d, square, last)
}

// Whether the squared distance is at most `square`, that of `d`, at some common instant. The
// results at the end of a run are kept for the next, which usually begins there.
#[tactic(auto, using(crate::proofs::Stretches::covers_order, crate::proofs::Stretches::covers_clear, crate::proofs::Stretches::runs_all, crate::proofs::Stretches::left_next, crate::proofs::Stretches::right_next, crate::proofs::Stretches::runs_next, crate::proofs::Stretches::runs_start, crate::proofs::Stretches::runs_missed, crate::proofs::Stretches::runs_hit, crate::proofs::Stretches::all_missed))]
fn stretches_come_within(
    alloc: Global,
    v: &[Slice<PlaneLine>],
    over_v: &[Cover],
    w: &[Slice<PlaneLine>],
    over_w: &[Cover],
    d: &Frac,
    square: &Exact,
) -> Result<bool, AllocError>
    requires left_covers { AreCoversOf v.now over_v.now }
    requires right_covers { AreCoversOf w.now over_w.now }
    requires distance { up_to nil d.now ≡ true }
    requires square { square.now ≡ d.now *ℚ d.now }
    ensures value { IfOk result (λ b. b ≡ some_reach square.now (pieces (Slices v.now) (Slices w.now))) }
{
    let mut last = nothing();
    for both in SharedPieces::new(over_v, over_w) {
        let here = stretch_comes_within(alloc, v, both.left, w, both.right, d, square, &mut last)?;
        if here {
            return Ok(true);
        }
    }
    Ok(false)
}

// Whether the squared distance is at most `square`, that of `d`, at some common instant.
fn covered_come_within(
    alloc: Global,
    a: &Moving<PlaneLine>,
    over_a: &Covers,
    b: &Moving<PlaneLine>,
    over_b: &Covers,
    d: &Frac,
    square: &Exact,
) -> Result<bool, AllocError>
    requires left { AreCoversOf a.now over_a.now }
    requires right { AreCoversOf b.now over_b.now }
    requires distance { up_to nil d.now ≡ true }
    requires square { square.now ≡ d.now *ℚ d.now }
    ensures value { IfOk result (λ r. r ≡ some_reach square.now (pieces (Slices a.now) (Slices b.now))) }
{
    stretches_come_within(
        alloc,
        a.slices(),
        over_a.all(),
        b.slices(),
        over_b.all(),
        d,
        square,
    )
}

// Whether two covers share an instant.
fn share_covers(over_v: &[Cover], over_w: &[Cover]) -> bool
    requires left { PiecesAreClear (λ c. c.span) over_v.now }
    requires right { PiecesAreClear (λ c. c.span) over_w.now }
    ensures none { result ≡ false → shared_pieces (λ c. c.span) (λ c. c.span) over_v.now over_w.now ≡ [] }
{
    let mut walk = SharedPieces::new(over_v, over_w);
    walk.next().is_some()
}

// Whether some instant is common.
fn have_common(
    a: &Moving<PlaneLine>,
    over_a: &Covers,
    b: &Moving<PlaneLine>,
    over_b: &Covers,
) -> bool
    requires left { AreCoversOf a.now over_a.now }
    requires right { AreCoversOf b.now over_b.now }
    ensures value { result ≡ are_some (pieces (Slices a.now) (Slices b.now)) }
{
    let met = share_covers(over_a.all(), over_b.all());
    if met {
        return share_time(Operand::Moving(a), Operand::Moving(b));
    }
    false
}

/// Whether two moving points are within the distance `d` of each other at some instant at which
/// both are defined: that of `ever_within_wide`. The walk skips runs of slices whose rectangles are
/// more than `d` apart. The only error is a failed allocation: it allocates only where a step of a
/// piece overflows.
pub fn ever_within_covered(
    alloc: Global,
    a: &Moving<PlaneLine>,
    over_a: &Covers,
    b: &Moving<PlaneLine>,
    over_b: &Covers,
    d: &Frac,
) -> Result<Option<bool>, AllocError>
    requires left { AreCoversOf a.now over_a.now }
    requires right { AreCoversOf b.now over_b.now }
    ensures value { IfOk result (IsEver (are_within d.now) (value_at plane_value_of a.now) (value_at plane_value_of b.now)) }
{
    if d.is_before(&Frac::zero()) {
        return Ok(never(have_common(a, over_a, b, over_b)));
    }
    let square = Exact::square_of(alloc, d)?;
    let near = covered_come_within(alloc, a, over_a, b, over_b, d, &square)?;
    if near {
        return Ok(Some(true));
    }
    Ok(never(have_common(a, over_a, b, over_b)))
}

// The squared distance of the rectangles of two runs. It is `None` if a step to it does not fit.
fn gap_of(a: &Cover, b: &Cover) -> Option<Frac>
    ensures gap { IfSome result (λ g. g ≡ cover_gap a.now b.now) }
{
    let Some(x) = gap_between(&a.xmin, &a.xmax, &b.xmin, &b.xmax) else {
        return None;
    };
    let Some(y) = gap_between(&a.ymin, &a.ymax, &b.ymin, &b.ymax) else {
        return None;
    };
    square_of(&x, &y).ok()
}

// Whether the rectangles of two runs are at least as far apart as `found`. If their distance does
// not fit, it is false.
fn are_beyond_found(alloc: Global, a: &Cover, b: &Cover, found: &Exact) -> Result<bool, AllocError>
    ensures beyond { IfOk result (λ r. r ≡ true → up_to found.now (cover_gap a.now b.now) ≡ true) }
{
    let Some(gap) = gap_of(a, b) else {
        return Ok(false);
    };
    let gap = Exact::of(&gap);
    let nearer = gap.is_below(alloc, found)?;
    Ok(!nearer)
}

// The smaller of the result so far and that of two runs, which are likely nearer: each piece is
// computed without a look at its rectangles.
#[tactic(auto, using(crate::proofs::Stretches::rising_clear, crate::proofs::Stretches::walked_start, crate::proofs::Stretches::held_next, crate::proofs::Stretches::some_next, crate::proofs::Stretches::walked_next, crate::proofs::Stretches::nearer_start, crate::proofs::Stretches::piece_counted, crate::proofs::Stretches::pieces_counted))]
fn runs_nearer(
    alloc: Global,
    v: &[Slice<PlaneLine>],
    w: &[Slice<PlaneLine>],
    found: Option<Exact>,
    last: &mut LastFound,
) -> Result<Option<Exact>, AllocError>
    requires left { IsRisingInTime (λ c. c.from) (λ c. c.to) v.now }
    requires right { IsRisingInTime (λ c. c.from) (λ c. c.to) w.now }
    ensures value { IfOk result (λ o. o ≡ nearer_of found (least_approach (pieces (Slices v.now) (Slices w.now)))) }
{
    let mut nearest = found;
    for met in SharedPieces::new(v, w) {
        let piece = Piece {
            span: met.span,
            left: Side::Moving(met.left),
            right: Side::Moving(met.right),
        };
        nearer_directly(alloc, &piece, &mut nearest, last)?;
    }
    Ok(nearest)
}

// The smaller of the result so far and that of the runs of two covers.
fn stretch_counted(
    alloc: Global,
    v: &[Slice<PlaneLine>],
    over_v: &Cover,
    w: &[Slice<PlaneLine>],
    over_w: &Cover,
    found: Option<Exact>,
    last: &mut LastFound,
) -> Result<Option<Exact>, AllocError>
    requires left { IsRisingInTime (λ c. c.from) (λ c. c.to) v.now }
    requires right { IsRisingInTime (λ c. c.from) (λ c. c.to) w.now }
    requires left_run { IsRunOf v.now over_v.now }
    requires right_run { IsRunOf w.now over_w.now }
    ensures value { IfOk result (λ o. o ≡ nearer_of found (least_approach (pieces (Slices (run_of v.now over_v.now)) (Slices (run_of w.now over_w.now))))) }
{
    runs_nearer(alloc, run_of(v, over_v), run_of(w, over_w), found, last)
}

// The smaller of the result so far and that of the runs of two covers, which are skipped if their
// rectangles are no nearer.
fn stretch_nearer_than(
    alloc: Global,
    v: &[Slice<PlaneLine>],
    over_v: &Cover,
    w: &[Slice<PlaneLine>],
    over_w: &Cover,
    found: Exact,
    last: &mut LastFound,
) -> Result<Option<Exact>, AllocError>
    requires left { IsRisingInTime (λ c. c.from) (λ c. c.to) v.now }
    requires right { IsRisingInTime (λ c. c.from) (λ c. c.to) w.now }
    requires left_run { IsRunOf v.now over_v.now }
    requires right_run { IsRunOf w.now over_w.now }
    ensures value { IfOk result (λ o. o ≡ nearer_of (Some found) (least_approach (pieces (Slices (run_of v.now over_v.now)) (Slices (run_of w.now over_w.now))))) }
{
    let beyond = are_beyond_found(alloc, over_v, over_w, &found)?;
    if beyond {
        return Ok(Some(found));
    }
    stretch_counted(alloc, v, over_v, w, over_w, Some(found), last)
}

// The smaller of the result so far and that of the runs of two covers, which are skipped if their
// rectangles are no nearer.
fn stretch_nearer(
    alloc: Global,
    v: &[Slice<PlaneLine>],
    over_v: &Cover,
    w: &[Slice<PlaneLine>],
    over_w: &Cover,
    found: Option<Exact>,
    last: &mut LastFound,
) -> Result<Option<Exact>, AllocError>
    requires left { IsRisingInTime (λ c. c.from) (λ c. c.to) v.now }
    requires right { IsRisingInTime (λ c. c.from) (λ c. c.to) w.now }
    requires left_run { IsRunOf v.now over_v.now }
    requires right_run { IsRunOf w.now over_w.now }
    ensures value { IfOk result (λ o. o ≡ nearer_of found (least_approach (pieces (Slices (run_of v.now over_v.now)) (Slices (run_of w.now over_w.now))))) }
{
    match found {
        Some(found) => stretch_nearer_than(alloc, v, over_v, w, over_w, found, last),
        None => stretch_counted(alloc, v, over_v, w, over_w, None, last),
    }
}

// The least approach of two lists of slices. The results at the end of a run are kept for the next,
// which usually begins there.
#[tactic(auto, using(crate::proofs::Stretches::covers_order, crate::proofs::Stretches::covers_clear, crate::proofs::Stretches::runs_all, crate::proofs::Stretches::left_next, crate::proofs::Stretches::right_next, crate::proofs::Stretches::runs_next, crate::proofs::Stretches::least_start, crate::proofs::Stretches::runs_counted, crate::proofs::Stretches::all_counted))]
fn least_of_stretches(
    alloc: Global,
    v: &[Slice<PlaneLine>],
    over_v: &[Cover],
    w: &[Slice<PlaneLine>],
    over_w: &[Cover],
) -> Result<Option<Exact>, AllocError>
    requires left_covers { AreCoversOf v.now over_v.now }
    requires right_covers { AreCoversOf w.now over_w.now }
    ensures least { IfOk result (λ o. o ≡ least_approach (pieces (Slices v.now) (Slices w.now))) }
{
    let mut nearest = None;
    let mut last = nothing();
    for both in SharedPieces::new(over_v, over_w) {
        let next = stretch_nearer(alloc, v, both.left, w, both.right, nearest, &mut last)?;
        nearest = next;
    }
    Ok(nearest)
}

/// The greatest lower bound of the squared distance of two moving points over all instants at which
/// both are defined: that of `least_exact`. The walk skips runs of slices whose rectangles are no
/// nearer than the result so far. The only error is a failed allocation: it allocates only where a
/// step of a piece overflows.
pub fn least_covered(
    alloc: Global,
    a: &Moving<PlaneLine>,
    over_a: &Covers,
    b: &Moving<PlaneLine>,
    over_b: &Covers,
) -> Result<Option<Exact>, AllocError>
    requires left { AreCoversOf a.now over_a.now }
    requires right { AreCoversOf b.now over_b.now }
    ensures value { IfOk result (IsApproach (value_at plane_value_of a.now) (value_at plane_value_of b.now)) }
    ensures least { IfOk result (λ o. o ≡ least_approach (pieces (Slices a.now) (Slices b.now))) }
{
    least_of_stretches(alloc, a.slices(), over_a.all(), b.slices(), over_b.all())
}

/// The greatest lower bound of the squared distance of two moving points over all instants at which
/// both are defined: that of `approach_wide`, by the walk of `least_covered`.
///
/// The fault is `Given`, exactly if that number does not fit, or out of memory.
#[tactic(auto, using(crate::proofs::Widely::given_value, crate::proofs::Widely::given_judged, crate::proofs::Widely::none_judged))]
pub fn approach_covered(
    alloc: Global,
    a: &Moving<PlaneLine>,
    over_a: &Covers,
    b: &Moving<PlaneLine>,
    over_b: &Covers,
) -> Result<Option<Frac>, Fault<Formula>>
    requires left { AreCoversOf a.now over_a.now }
    requires right { AreCoversOf b.now over_b.now }
    ensures value { IfOk result (IsApproach (value_at plane_value_of a.now) (value_at plane_value_of b.now)) }
    ensures first { IsJudged (approach_entries_in Wide (pieces (Slices a.now) (Slices b.now))) result }
{
    let nearest = least_covered(alloc, a, over_a, b, over_b)?;
    match nearest {
        Some(square) => given(alloc, &square),
        None => Ok(None),
    }
}
