//! The expressions of the select list and of the keys, which are evaluated on each tuple.
ghost use Rattle.std.specs.Prelude.{◌≡◌, ◌++◌, IfOk, map};
ghost use Rattle.mob_typed.specs.Selects.{output_of, key_seen, select_seen};
ghost use Rattle.mob_eval.specs.Remembered.{root_seen};
ghost use Rattle.mob_tail.specs.Recalling.{item_trees, order_trees};

use mob_list::text::Text;
use mob_typed::{TExpr, TypedSelect};
use std::alloc::{AllocError, Global};

// The expressions of the select list.
fn item_roots<'a>(alloc: Global, items: &'a [(TExpr, Text)]) -> Result<Vec<&'a TExpr>, AllocError>
    ensures roots { IfOk result (λ v. map root_seen v.items ≡ map (λ item. item.0) (map output_of items.now)) }
{
    let mut roots = Vec::new(alloc);
    for item in items {
        roots.push(&item.0)?;
    }
    Ok(roots)
}

// The expressions of the select list, then those of the keys.
fn roots_in<'a>(
    alloc: Global,
    items: &'a [(TExpr, Text)],
    keys: &'a [(TExpr, bool)],
) -> Result<Vec<&'a TExpr>, AllocError>
    ensures roots { IfOk result (λ v. map root_seen v.items ≡ map (λ item. item.0) (map output_of items.now) ++ map (λ key. key.0) (map key_seen keys.now)) }
{
    let mut roots = item_roots(alloc, items)?;
    for key in keys {
        roots.push(&key.0)?;
    }
    Ok(roots)
}

/// The expressions of the select list, then those of the keys. The only error is a failed
/// allocation.
pub fn roots_of(alloc: Global, select: &TypedSelect) -> Result<Vec<&TExpr>, AllocError>
    ensures roots { IfOk result (λ v. map root_seen v.items ≡ item_trees (select_seen select.now) ++ order_trees (select_seen select.now)) }
{
    roots_in(alloc, select.items.as_slice(), select.keys.as_slice())
}
