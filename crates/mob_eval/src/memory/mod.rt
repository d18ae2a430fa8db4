//! The memory: the outcomes of remembered operators, and the boxes and covers of remembered
//! operands.
ghost use Rattle.std.specs.Prelude.{IfSome};
ghost use Rattle.mob_meaning.specs.Depends.{HasRow};
ghost use Rattle.mob_eval.specs.Remembered.{IsMemoOf, IsOfPlace};

pub mod chosen;
pub mod own_box;
pub mod own_covers;
pub mod remembered;

use crate::memory::own_box::ToldBox;
use crate::memory::own_covers::ToldCovers;
use crate::memory::remembered::{Outcomes, Remembering};
use mob_outcome::memos::{Memo, Told};
use once_cell::race::OnceBox;
use std::alloc::{AllocError, Global};
use std::marker::{Model, PhantomData};
use std::sync::atomic::AtomicU64;

// How many memos are allocated at once.
const MEMOS: usize = 256;

// Memos of neighbouring rows.
#[derive(Drop)]
struct Chunk<T> {
    memos: Vec<OnceBox<T>>,
}

// The memos of an operator: one for each row of the table that it names, or one if it names none.
#[derive(Drop)]
struct Slot<K: Remembering, T> {
    at: u32,
    place: Option<u32>,
    chunks: Vec<OnceBox<Chunk<T>>>,
    by: PhantomData<K>,
}

impl<K: Remembering, T> Model for Slot<K, T> {
    ghost use Rattle.std.specs.Prelude.{ℕ, Option};
    ghost use Rattle.mob_eval.specs.Remembered.{IsOfPlace};

    ghost Value = { ℕ × Option ℕ };

    ghost view = { λ s. (s.at, s.place) };

    ghost invariant = { λ s. IsOfPlace K.recollection s.at s.place };
}

/// The outcomes of the remembered operators of a query, and the boxes and covers of remembered
/// operands. Workers share it without waiting for each other.
#[derive(Drop)]
pub struct Memory<K: Remembering> {
    slots: Vec<Slot<K, Told<Outcomes<K>>>>,
    boxes: Vec<Slot<K, ToldBox<K>>>,
    covers: Vec<Slot<K, ToldCovers<K>>>,
    taken: AtomicU64,
}

// `many` empty memos.
fn empty_memos<T: Drop>(alloc: Global, many: usize) -> Result<Vec<OnceBox<T>>, AllocError> {
    let mut memos = Vec::with_capacity(alloc, many)?;
    for _memo in 0..many {
        memos.push(OnceBox::new(alloc))?;
    }
    Ok(memos)
}

// The chunk of this place. It is made if it does not exist; if an allocation fails there is none.
fn chunk_in<T: Drop>(alloc: Global, kept: &OnceBox<Chunk<T>>) -> Option<&Chunk<T>> {
    if let Some(chunk) = kept.get() {
        return Some(chunk);
    }
    let Ok(memos) = empty_memos(alloc, MEMOS) else {
        return None;
    };
    let Ok(boxed) = Box::new(alloc, Chunk { memos }) else {
        return None;
    };
    // Another worker may have set its chunk first; then that one is used.
    let _set = kept.set(boxed);
    kept.get()
}

// The memo of a row.
fn kept_at<T: Drop>(alloc: Global, chunks: &[OnceBox<Chunk<T>>], row: u32) -> Option<&OnceBox<T>> {
    let number = row as usize;
    let Some(kept) = chunks.get(number / MEMOS) else {
        return None;
    };
    let Some(chunk) = chunk_in(alloc, kept) else {
        return None;
    };
    chunk.memos.get(number % MEMOS)
}

// The row of a tuple at a place.
fn row_at(place: Option<u32>, tuple: &[u32]) -> Option<u32>
    ensures row { IfSome result (λ row. HasRow place row tuple.now) }
{
    match place {
        Some(place) => Some(*tuple.get(place as usize)?),
        None => Some(0),
    }
}

impl<K: Remembering, T: Drop> Slot<K, T> {
    // The memo of the row of a tuple; none if the table has no row in the tuple.
    fn memo<'a>(&'a self, alloc: Global, tuple: &[u32], taken: &'a AtomicU64) -> Option<Memo<'a, T>>
        ensures memo { IfSome result (λ c. IsMemoOf K.recollection self.now.0 tuple.now c.at c.place c.row) }
    {
        let place = self.place;
        let Some(row) = row_at(place, tuple) else {
            return None;
        };
        let Some(kept) = kept_at(alloc, self.chunks.as_slice(), row) else {
            return None;
        };
        Some(Memo {
            at: self.at,
            place,
            row,
            kept,
            taken,
        })
    }
}

impl<K: Remembering> Memory<K> {
    /// The memory if it remembers something, else none: then no operator looks for a slot.
    pub fn in_use(&self) -> Option<&Memory<K>> {
        if self.slots.is_empty() && self.boxes.is_empty() && self.covers.is_empty() {
            return None;
        }
        Some(self)
    }

    /// A memory that remembers nothing.
    pub fn new(alloc: Global) -> Memory<K> {
        Memory {
            slots: Vec::new(alloc),
            boxes: Vec::new(alloc),
            covers: Vec::new(alloc),
            taken: AtomicU64::new(0),
        }
    }
}

// Remembers one more operator or operand, by its place in the script. It names one place of FROM,
// whose table has `rows` rows, or none.
fn remember<K: Remembering, T: Drop>(
    alloc: Global,
    at: u32,
    place: Option<u32>,
    rows: usize,
    slots: &mut Vec<Slot<K, T>>,
) -> Result<(), AllocError>
    requires fits { IsOfPlace K.recollection at place }
{
    let chunks = empty_memos(alloc, rows.div_ceil(MEMOS))?;
    slots.push(Slot {
        at,
        place,
        chunks,
        by: PhantomData,
    })?;
    Ok(())
}

// The memo for a place in the script on a tuple, if the place has a slot.
fn memo_in<'a, K: Remembering, T: Drop>(
    alloc: Global,
    slots: &'a [Slot<K, T>],
    taken: &'a AtomicU64,
    at: u32,
    tuple: &[u32],
) -> Option<Memo<'a, T>>
    ensures memo { IfSome result (λ c. IsMemoOf K.recollection at tuple.now c.at c.place c.row) }
{
    for slot in slots {
        if slot.at == at {
            return slot.memo(alloc, tuple, taken);
        }
    }
    None
}

/// The memo of the operator at a place in the script on a tuple, if its outcomes are remembered.
pub fn memo_of<'a, K: Remembering>(
    alloc: Global,
    memory: Option<&'a Memory<K>>,
    at: u32,
    tuple: &[u32],
) -> Option<Memo<'a, Told<Outcomes<K>>>>
    ensures memo { IfSome result (λ c. IsMemoOf K.recollection at tuple.now c.at c.place c.row) }
{
    match memory {
        Some(memory) => memo_in(alloc, &memory.slots, &memory.taken, at, tuple),
        None => None,
    }
}

/// The memo of the operand at a place in the script on a tuple, if its boxes are remembered.
pub fn box_memo_of<'a, K: Remembering>(
    alloc: Global,
    memory: Option<&'a Memory<K>>,
    at: u32,
    tuple: &[u32],
) -> Option<Memo<'a, ToldBox<K>>>
    ensures memo { IfSome result (λ c. IsMemoOf K.recollection at tuple.now c.at c.place c.row) }
{
    match memory {
        Some(memory) => memo_in(alloc, &memory.boxes, &memory.taken, at, tuple),
        None => None,
    }
}

/// The memo of the operand at a place in the script on a tuple, if its covers are remembered.
pub fn covers_memo_of<'a, K: Remembering>(
    alloc: Global,
    memory: Option<&'a Memory<K>>,
    at: u32,
    tuple: &[u32],
) -> Option<Memo<'a, ToldCovers<K>>>
    ensures memo { IfSome result (λ c. IsMemoOf K.recollection at tuple.now c.at c.place c.row) }
{
    match memory {
        Some(memory) => memo_in(alloc, &memory.covers, &memory.taken, at, tuple),
        None => None,
    }
}
