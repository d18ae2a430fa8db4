//! Why a call gave no answer.
ghost use Rattle.std.specs.Prelude.{◌≡◌};
ghost use Rattle.mob_list.specs.Faults.{fault_at};

use std::alloc::{AllocError, AllocFailed};

/// Why a call gave no answer: a cause of its own, or out of memory.
#[derive(Clone, Copy, Debug, Drop, PartialEq, Eq)]
pub enum Fault<C> {
    /// The cause.
    Because(C),
    /// Out of memory.
    NoMemory,
}

impl<C> From<AllocError> for Fault<C> {
    ghost use Rattle.std.specs.Prelude.{◌≡◌};
    ghost use Rattle.mob_list.specs.declared.fault.Fault.TheVariants.{NoMemory};

    ghost from_gives = { λ _ e. e ≡ NoMemory };

    fn from(_: AllocError) -> Fault<C> {
        Fault::NoMemory
    }
}

impl<C, T: Drop> From<AllocFailed<T>> for Fault<C> {
    ghost use Rattle.std.specs.Prelude.{◌≡◌};
    ghost use Rattle.mob_list.specs.declared.fault.Fault.TheVariants.{NoMemory};

    ghost from_gives = { λ _ e. e ≡ NoMemory };

    fn from(_: AllocFailed<T>) -> Fault<C> {
        Fault::NoMemory
    }
}

/// The fault with a place beside its cause, as that of a row for that of its values.
pub fn fault_at<P: Drop, C>(place: P, fault: Fault<C>) -> Fault<(P, C)>
    ensures value { result ≡ fault_at place fault }
{
    match fault {
        Fault::Because(cause) => Fault::Because((place, cause)),
        Fault::NoMemory => Fault::NoMemory,
    }
}
