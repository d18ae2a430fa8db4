//! A number of any size that has to fit.
ghost use Rattle.std.specs.Prelude.{◌≡◌, [], ◌∷◌};
ghost use Rattle.mob_slice.specs.Entries.{IsMadeBy};
ghost use Rattle.mob_slice.specs.declared.formula.Formula.TheVariants.{Given};

use mob_frac::Frac;
use mob_list::fault::Fault;
use mob_slice::Formula;
use mob_wide::Broad;
use std::alloc::Global;

/// The number in lowest terms. The fault is `Given`, exactly if a part has more than 62 bits, or out
/// of memory.
pub fn given(alloc: Global, number: &Broad) -> Result<Frac, Fault<Formula>>
    ensures made { IsMadeBy Given (number.now ∷ []) (λ v. v ≡ number.now) result }
{
    match number.fitting(alloc) {
        Ok(Some(number)) => Ok(number),
        Ok(None) => Err(Fault::Because(Formula::Given)),
        Err(_) => Err(Fault::NoMemory),
    }
}
