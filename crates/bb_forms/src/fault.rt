ghost use Rattle.std.specs.Prelude.{◌≡◌, ◌+◌, ◌-◌, ◌<◌, ◌^◌, min};

use std::alloc::{AllocError, AllocFailed};

/// Why a text isn't read.
#[derive(Clone, Copy, Debug, PartialEq, Eq)]
pub enum FormFault {
    /// The first line that isn't of the form, or that is missing: lines are counted from 1, up to the greatest number that fits.
    BadLine { line: u32 },
    NoMemory,
}

/// The fault of the line behind so many.
pub(crate) fn bad_line(lines: u64) -> FormFault
    requires { lines < 2 ^ 64 - 1 }
    ensures { result ≡ FormFault.BadLine (min 4294967295 (lines + 1)) }
{
    FormFault::BadLine {
        line: (lines + 1).min(u64::from(u32::MAX)) as u32,
    }
}
