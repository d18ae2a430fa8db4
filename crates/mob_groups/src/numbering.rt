//! Numbers the groups of entries by their keys.
ghost use Rattle.std.specs.Prelude.{◌≡◌, IfOk, length, map};
ghost use Rattle.mob_groups.specs.Groups.{first_keys, group_number};

use indexmap::IndexSet;
use std::alloc::{AllocError, Global};
use std::hash::Hash;

/// The groups of entries by their keys.
#[derive(Drop)]
pub struct Groups {
    /// For each entry the number of its group, from 0, in the order of the first entries of the
    /// groups.
    pub numbers: Vec<usize>,
    /// How many groups there are.
    pub groups: usize,
}

/// The groups of entries with these keys. Entries with equal keys are in one group. The only error
/// is a failed allocation.
pub fn numbered<K: Eq + Hash + Drop>(alloc: Global, keys: Vec<K>) -> Result<Groups, AllocError>
    ensures numbers { IfOk result (λ r. r.numbers.items ≡ map (group_number K.eq keys.items) keys.items) }
    ensures groups { IfOk result (λ r. r.groups ≡ length (first_keys K.eq keys.items)) }
{
    let mut firsts = IndexSet::new(alloc);
    let mut numbers = Vec::new(alloc);
    for key in keys {
        let (number, _) = firsts.insert_full(key)?;
        numbers.push(number)?;
    }
    Ok(Groups {
        numbers,
        groups: firsts.len(),
    })
}
