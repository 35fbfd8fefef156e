ghost use Rattle.std.specs.Prelude.{◌≡◌};
ghost use Rattle.bb_base.specs.declared.fault.NetFault.TheVariants.{NoMemory};

use crate::NetId;
use std::alloc::{AllocError, AllocFailed};

/// Why a builder refuses.
#[derive(Clone, Copy, Debug, PartialEq, Eq)]
pub enum NetFault {
    /// The name stands already, for the variable of this number.
    Redeclared { variable: u32 },
    /// Two drivers of one net.
    TwoDrivers { net: NetId },
    /// No driver of a net.
    Undriven { net: NetId },
    /// An operator with a number of inputs that it doesn't take.
    BadArity { gate: u32 },
    /// More nets than are built: their number, and the most.
    TooMany { count: u64, limit: u64 },
    NoMemory,
}

impl From<AllocError> for NetFault {
    ghost from_gives = { λ _ e. e ≡ NoMemory };

    fn from(_: AllocError) -> Self {
        NetFault::NoMemory
    }
}

impl<T: Drop> From<AllocFailed<T>> for NetFault {
    ghost from_gives = { λ _ e. e ≡ NoMemory };

    fn from(_: AllocFailed<T>) -> Self {
        NetFault::NoMemory
    }
}
