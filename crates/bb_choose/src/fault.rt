use bb_code::Need;
use std::alloc::{AllocError, AllocFailed};

/// Why no plan is chosen, in the order in which it is tried.
#[derive(Clone, Copy, Debug, PartialEq, Eq)]
pub enum ChoiceFault {
    /// The first gate by number with more different inputs than the width.
    GateTooWide { gate: u32, inputs: u32, width: u32 },
    /// No degree will do. What the highest lacks: `source` in it is a net.
    DegreeLimit { max: u32, need: Need },
    /// At the least degree a test takes more cycles than it may.
    CycleLimit { needed: u64, limit: u64 },
    /// No mask of this length has full period: of the degree, or else of a register.
    NoFullPeriod { degree: u32 },
    NoMemory,
}

impl From<AllocError> for ChoiceFault {
    ghost use Rattle.std.specs.Prelude.{◌≡◌};
    ghost use Rattle.bb_choose.specs.declared.fault.ChoiceFault.TheVariants.{NoMemory};

    ghost from_gives = { λ _ e. e ≡ NoMemory };

    fn from(_: AllocError) -> Self {
        ChoiceFault::NoMemory
    }
}

impl<T: Drop> From<AllocFailed<T>> for ChoiceFault {
    ghost use Rattle.std.specs.Prelude.{◌≡◌};
    ghost use Rattle.bb_choose.specs.declared.fault.ChoiceFault.TheVariants.{NoMemory};

    ghost from_gives = { λ _ e. e ≡ NoMemory };

    fn from(_: AllocFailed<T>) -> Self {
        ChoiceFault::NoMemory
    }
}
