//! What a memory may remember: the operators, and the meaning of their outcomes.
ghost use Rattle.mob_eval.specs.Remembered.{Recollection, nothing};

use mob_outcome::memos::Telling;
use std::marker::{Brand, PhantomData};

/// The operators that are remembered, by their places in the script, and the tables over which they
/// are.
pub trait Remembering {
    ghost recollection: { Recollection };
}

/// Nothing is remembered.
pub struct Nothing;

// What is remembered of a query is chosen where its memory is made.
impl Remembering for Brand {
    ghost recollection = { nothing };
}

impl Remembering for Nothing {
    ghost recollection = { nothing };
}

/// The outcomes of the remembered operators, which are in the memos of a memory.
pub struct Outcomes<K: Remembering> {
    by: PhantomData<K>,
}

impl<K: Remembering> Telling for Outcomes<K> {
    ghost use Rattle.mob_eval.specs.Remembered.{IsTold};

    ghost tells = { IsTold K.recollection };
}
