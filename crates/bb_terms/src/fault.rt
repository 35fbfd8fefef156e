ghost use Rattle.std.specs.Prelude.{◌≡◌};
ghost use Rattle.bb_terms.specs.declared.fault.PlanFault.TheVariants.{NoMemory};

use std::alloc::{AllocError, AllocFailed};

/// Why a plan isn't valid: the first rule that fails, by its number from 1, and the place at which it first fails.
#[derive(Clone, Copy, Debug, PartialEq, Eq)]
pub enum PlanFault {
    Rule { number: u8, place: u32 },
    NoMemory,
}

impl From<AllocError> for PlanFault {
    ghost from_gives = { λ _ e. e ≡ NoMemory };

    fn from(_: AllocError) -> Self {
        PlanFault::NoMemory
    }
}

impl<T: Drop> From<AllocFailed<T>> for PlanFault {
    ghost from_gives = { λ _ e. e ≡ NoMemory };

    fn from(_: AllocFailed<T>) -> Self {
        PlanFault::NoMemory
    }
}
