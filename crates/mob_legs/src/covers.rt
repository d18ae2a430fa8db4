//! Rectangles over runs of slices.
ghost use Rattle.std.specs.Prelude.{◌≡◌, ◌<◌, ◌≤◌, ◌+◌, ◌∷◌, ◌++◌, [], true, length, IfOk, OnOk};
ghost use Rattle.mob_span.specs.Span.{has_instant};
ghost use Rattle.mob_span.specs.Neighbours.{is_clear, joined};
ghost use Rattle.mob_span.specs.Pieces.{PiecesAreClear};
ghost use Rattle.mob_slice.specs.Slices.{IsRisingInTime};
ghost use Rattle.mob_legs.specs.Covers.{AreCoversOf};
ghost use Rattle.mob_legs.specs.Covering.{IsCoverOn, first_cover, with_slice};

use mob_frac::Frac;
use mob_plane::{greater, smaller};
use mob_slice::{Moving, PlaneLine, Slice};
use mob_span::{Span, Spanned};
use std::alloc::{AllocError, Global};
use std::marker::Model;

// How many slices a run has. The last one may be shorter.
const RUN: usize = 16;

/// The time and the rectangle of a run of slices, and which slices these are.
#[derive(Drop)]
pub struct Cover {
    /// The time from the start of the first slice to the end of the last.
    pub span: Span,
    /// The least coordinate to the east.
    pub xmin: Frac,
    /// The greatest coordinate to the east.
    pub xmax: Frac,
    /// The least coordinate to the north.
    pub ymin: Frac,
    /// The greatest coordinate to the north.
    pub ymax: Frac,
    /// The number of the first slice.
    pub start: usize,
    /// How many slices there are.
    pub count: usize,
}

impl Spanned for Cover {
    ghost span_of = { λ c. c.span };

    fn time(&self) -> &Span {
        &self.span
    }
}

/// The covers of a moving point: rectangles over runs of its slices, in order of time.
#[derive(Drop)]
pub struct Covers {
    all: Vec<Cover>,
}

impl Model for Covers {
    ghost use Rattle.std.specs.Prelude.{List};
    ghost use Rattle.mob_legs.specs.declared.covers.Cover.{Cover};

    ghost Value = { List Cover };

    ghost view = { λ c. c.all.items };
}

impl Covers {
    /// The covers.
    pub fn all(&self) -> &[Cover]
        ensures same { result.now ≡ self.now }
    {
        self.all.as_slice()
    }
}

// The cover of one slice.
fn first_cover(slice: &Slice<PlaneLine>, start: usize) -> Cover
    ensures cover { result ≡ first_cover slice.now start }
{
    let from = &slice.course.from;
    let to = &slice.course.to;
    Cover {
        span: slice.span,
        xmin: smaller(&from.x, &to.x),
        xmax: greater(&from.x, &to.x),
        ymin: smaller(&from.y, &to.y),
        ymax: greater(&from.y, &to.y),
        start,
        count: 1,
    }
}

// The time from the start of one span to the end of a later one.
fn through(first: &Span, last: &Span) -> Span
    requires first { has_instant first.now ≡ true }
    requires last { has_instant last.now ≡ true }
    requires clear { is_clear first.now last.now ≡ true }
    ensures joined { result ≡ joined first.now last.now }
{
    match Span::new(
        *first.lower(),
        *last.upper(),
        first.lower_inc(),
        last.upper_inc(),
    ) {
        Some(span) => span,
        None => unreachable!(),
    }
}

// The cover with one more slice.
fn with_slice(cover: &Cover, slice: &Slice<PlaneLine>) -> Cover
    requires first { has_instant cover.now.span ≡ true }
    requires last { has_instant slice.now.span ≡ true }
    requires clear { is_clear cover.now.span slice.now.span ≡ true }
    requires room { cover.now.count < 16 }
    ensures cover { result ≡ with_slice cover.now slice.now }
{
    let from = &slice.course.from;
    let to = &slice.course.to;
    let span = through(&cover.span, &slice.span);
    let xmin = smaller(&cover.xmin, &smaller(&from.x, &to.x));
    let xmax = greater(&cover.xmax, &greater(&from.x, &to.x));
    let ymin = smaller(&cover.ymin, &smaller(&from.y, &to.y));
    let ymax = greater(&cover.ymax, &greater(&from.y, &to.y));
    Cover {
        span,
        xmin,
        xmax,
        ymin,
        ymax,
        start: cover.start,
        count: cover.count + 1,
    }
}

// The cover of the first slices, at most as many as a run has.
#[tactic(auto, using(crate::proofs::Covering::extending_start, crate::proofs::Covering::extending_step, crate::proofs::Covering::extending_clear, crate::proofs::Covering::extending_few))]
fn cover_on(first: &Slice<PlaneLine>, slices: &[Slice<PlaneLine>], start: usize) -> Cover
    requires clear { PiecesAreClear (λ s. s.span) (first.now ∷ slices.now) }
    ensures cover { IsCoverOn start (first.now ∷ slices.now) result }
    ensures few { result.count ≤ length slices.now + 1 }
{
    let mut cover = first_cover(first, start);
    let mut rest = slices;
    'slices: while let Some((slice, more)) = rest.split_first() {
        if cover.count >= RUN {
            return cover;
        }
        cover = with_slice(&cover, slice);
        rest = more;
    }
    cover
}

// Appends a cover.
fn add(all: &mut Vec<Cover>, cover: Cover) -> Result<(), AllocError>
    ensures added { OnOk result (all.new.items ≡ all.old.items ++ cover ∷ []) }
{
    all.push(cover)?;
    Ok(())
}

// The covers of slices in order of time.
#[tactic(auto, using(crate::proofs::Covering::making_start, crate::proofs::Covering::making_next, crate::proofs::Covering::making_room, crate::proofs::Covering::few_left, crate::proofs::Covering::fewer_next, crate::proofs::Covering::making_end))]
fn covers_on(alloc: Global, slices: &[Slice<PlaneLine>]) -> Result<Covers, AllocError>
    requires order { IsRisingInTime (λ c. c.from) (λ c. c.to) slices.now }
    ensures covers { IfOk result (AreCoversOf slices.now) }
{
    let mut all = Vec::new(alloc);
    let mut start = 0;
    let mut rest = slices;
    'runs: while let Some((first, more)) = rest.split_first() {
        let cover = cover_on(first, more, start);
        let count = cover.count;
        add(&mut all, cover)?;
        start += count;
        rest = &rest[count..];
    }
    Ok(Covers { all })
}

/// The covers of a moving point, over runs of 16 slices. The last run may be shorter. The only
/// error is a failed allocation.
#[tactic(auto, using(crate::proofs::Covering::rising_as, crate::proofs::Covering::made_as))]
pub fn covers_of(alloc: Global, a: &Moving<PlaneLine>) -> Result<Covers, AllocError>
    ensures covers { IfOk result (AreCoversOf a.now) }
{
    covers_on(alloc, a.slices())
}
