ghost use Rattle.std.specs.Prelude.{◌≡◌};
ghost use Rattle.bb_fault.specs.declared.fault.ElabFault.TheVariants.{NoMemory};

use bb_base::Name;
use std::alloc::{AllocError, AllocFailed};

/// Why a module denotes no netlist.
///
/// A `select` is the index of a vector's bit, where the fault names one. A `line` is that of the statement's first token.
#[derive(Drop)]
pub enum ElabFault {
    /// A name that begins with `bt_`.
    Reserved {
        name: Name,
        select: Option<u32>,
    },
    /// Declarations that can't both stand.
    Redeclared {
        name: Name,
        select: Option<u32>,
    },
    /// A name of the header that stands twice or has no direction, or a direction of another name.
    BadPort {
        name: Name,
        select: Option<u32>,
    },
    /// More bits, together with the nets that expressions make, than the limit.
    TooMany {
        count: u64,
        limit: u64,
    },
    /// A cell that isn't in the table.
    UnknownCell {
        name: Name,
        select: Option<u32>,
    },
    /// Terminals or pins that don't fit the primitive or the cell.
    BadPins {
        line: u32,
    },
    /// A select of a scalar, outside the range, or against its direction.
    BadSelect {
        line: u32,
    },
    /// Widths that must be equal and differ.
    WidthDiffers {
        line: u32,
    },
    /// More than 65,536 bits in one value.
    TooWide {
        line: u32,
    },
    /// A net with two drivers.
    TwoDrivers {
        name: Name,
        select: Option<u32>,
    },
    /// A net without a driver.
    Undriven {
        name: Name,
        select: Option<u32>,
    },
    /// A clock pin that no input feeds through `Buf` gates alone.
    ClockNotInput {
        name: Name,
        select: Option<u32>,
    },
    /// Flip-flops on two clocks.
    TwoClocks {
        first: (Name, Option<u32>),
        second: (Name, Option<u32>),
    },
    /// A net of the clock that is read as data.
    ClockAsData {
        name: Name,
        select: Option<u32>,
    },
    /// Gates in a cycle of so many nets.
    Loop {
        name: Name,
        select: Option<u32>,
        count: u32,
    },
    /// Memory ran out.
    NoMemory,
}

impl From<AllocError> for ElabFault {
    ghost from_gives = { λ _ e. e ≡ NoMemory };

    fn from(_: AllocError) -> Self {
        ElabFault::NoMemory
    }
}

impl<T: Drop> From<AllocFailed<T>> for ElabFault {
    ghost from_gives = { λ _ e. e ≡ NoMemory };

    fn from(_: AllocFailed<T>) -> Self {
        ElabFault::NoMemory
    }
}
