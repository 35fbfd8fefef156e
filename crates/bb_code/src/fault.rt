// Why there is no code.

use std::alloc::{AllocError, AllocFailed};

/// Why a degree gives no columns.
#[derive(Clone, Copy, Debug, PartialEq, Eq)]
pub enum CodeFault {
    /// The first source for which no column is left.
    Stuck { source: u32 },
    NoMemory,
}

impl From<AllocError> for CodeFault {
    ghost use Rattle.std.specs.Prelude.{◌≡◌};
    ghost use Rattle.bb_code.specs.declared.fault.CodeFault.TheVariants.{NoMemory};

    ghost from_gives = { λ _ e. e ≡ NoMemory };

    fn from(_: AllocError) -> Self {
        CodeFault::NoMemory
    }
}

impl<T: Drop> From<AllocFailed<T>> for CodeFault {
    ghost use Rattle.std.specs.Prelude.{◌≡◌};
    ghost use Rattle.bb_code.specs.declared.fault.CodeFault.TheVariants.{NoMemory};

    ghost from_gives = { λ _ e. e ≡ NoMemory };

    fn from(_: AllocFailed<T>) -> Self {
        CodeFault::NoMemory
    }
}

/// What the highest degree lacks.
#[derive(Clone, Copy, Debug, PartialEq, Eq)]
pub enum Need {
    /// It has fewer states than there are cells.
    Cells { cells: u32 },
    /// The first source for which it has no column left.
    Source { source: u32 },
}

/// Why no degree of a range gives columns.
#[derive(Clone, Copy, Debug, PartialEq, Eq)]
pub enum DegreeFault {
    DegreeLimit { max: u32, need: Need },
    NoMemory,
}
