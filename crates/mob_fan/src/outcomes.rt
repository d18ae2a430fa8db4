//! The outcome of a range of work, and how neighbouring outcomes join.
ghost use Rattle.std.specs.Prelude.{◌≡◌, ◌++◌, Ok, IfOk};
ghost use Rattle.mob_fan.specs.Outcomes.{joined_outcomes, outcome_seen};

use mob_list::items::Items;
use std::alloc::AllocError;

/// The outcome of a range of work: its items in order, or its first fault.
#[derive(Drop)]
pub enum Outcome<I, F> {
    /// The items of the range, in order.
    Items(Items<I>),
    /// The first fault of the range.
    Stop(F),
}

/// The outcome of two neighbouring ranges: the items of both, or the fault that comes first,
/// whatever follows it. The only error is a failed allocation.
pub fn both<I: Drop, F: Drop>(
    left: Outcome<I, F>,
    right: Outcome<I, F>,
) -> Result<Outcome<I, F>, AllocError>
    ensures joined { IfOk result (λ o. outcome_seen o ≡ joined_outcomes (outcome_seen left) (outcome_seen right)) }
{
    match left {
        Outcome::Stop(first) => Ok(Outcome::Stop(first)),
        Outcome::Items(items) => followed(items, right),
    }
}

// The outcome of two neighbouring ranges, the left one of which has items.
fn followed<I: Drop, F: Drop>(
    items: Items<I>,
    right: Outcome<I, F>,
) -> Result<Outcome<I, F>, AllocError>
    ensures joined { IfOk result (λ o. outcome_seen o ≡ joined_outcomes (Ok items) (outcome_seen right)) }
{
    match right {
        Outcome::Stop(fault) => Ok(Outcome::Stop(fault)),
        Outcome::Items(others) => Ok(Outcome::Items(one_list(items, others)?)),
    }
}

// The items of two lists, in order.
fn one_list<I: Drop>(items: Items<I>, others: Items<I>) -> Result<Items<I>, AllocError>
    ensures both { IfOk result (λ all. all ≡ items ++ others) }
{
    let mut all = items.into_vec();
    let mut more = others.into_vec();
    all.append(&mut more)?;
    Ok(Items::from_vec(all))
}
