//! Maps the items of a list by a function that may fail.
ghost use Rattle.std.specs.Prelude.{◌≡◌, option_map, Option, IfOk};
ghost use Rattle.mob_scalar.specs.Traverse.{traverse};

use std::alloc::{AllocError, Global};

/// What `fit` makes of each item; `None` if it makes nothing of one of them. An error means that an
/// allocation failed.
pub fn fitting_each<A: Drop, B: Drop, F: Fn(A) -> Result<Option<B>, AllocError>>(
    alloc: Global,
    items: Vec<A>,
    fit: F,
) -> Result<Option<Vec<B>>, AllocError>
    requires callable { F.IsAlwaysCallable fit }
    ensures fitting { (part : A → Option B) → ((item : _) (made : _) → F.post fit item made → IfOk made (λ o. o ≡ part item)) → IfOk result (λ o. option_map (λ v. v.items) o ≡ traverse part items.items) }
{
    let mut fitting = Vec::new(alloc);
    for item in items {
        let Some(made) = fit(item)? else {
            return Ok(None);
        };
        fitting.push(made)?;
    }
    Ok(Some(fitting))
}
