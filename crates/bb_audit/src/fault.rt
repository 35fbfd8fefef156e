ghost use Rattle.std.specs.Prelude.{◌≡◌};
ghost use Rattle.bb_audit.specs.declared.fault.AuditFault.TheVariants.{NoMemory};

use std::alloc::{AllocError, AllocFailed};

/// Why files don't pass: the first rule that fails, by its number from 1, and the place at which it first fails.
#[derive(Clone, Copy, Debug, PartialEq, Eq)]
pub enum AuditFault {
    Refused { rule: u8, place: u32 },
    NoMemory,
}

impl From<AllocError> for AuditFault {
    ghost from_gives = { λ _ e. e ≡ NoMemory };

    fn from(_: AllocError) -> Self {
        AuditFault::NoMemory
    }
}

impl<T: Drop> From<AllocFailed<T>> for AuditFault {
    ghost from_gives = { λ _ e. e ≡ NoMemory };

    fn from(_: AllocFailed<T>) -> Self {
        AuditFault::NoMemory
    }
}
