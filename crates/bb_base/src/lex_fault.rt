ghost use Rattle.std.specs.Prelude.{◌≡◌};
ghost use Rattle.bb_base.specs.declared.lex_fault.LexFault.TheVariants.{NoMemory};

use std::alloc::{AllocError, AllocFailed};

/// The first thing in a text that is no token, with its line, or want of memory.
#[derive(Clone, Copy, Debug, PartialEq, Eq)]
pub enum LexFault {
    /// A byte that begins nothing.
    BadByte { line: u32 },
    /// A number or a constant that breaks its rule.
    BadNumber { line: u32 },
    /// A name of more than 1,024 bytes.
    LongName { line: u32 },
    /// A block comment or an attribute that isn't closed, with the line where it began.
    OpenComment { line: u32 },
    /// Memory ran out.
    NoMemory,
}

impl From<AllocError> for LexFault {
    ghost from_gives = { λ _ e. e ≡ NoMemory };

    fn from(_: AllocError) -> Self {
        LexFault::NoMemory
    }
}

impl<T: Drop> From<AllocFailed<T>> for LexFault {
    ghost from_gives = { λ _ e. e ≡ NoMemory };

    fn from(_: AllocFailed<T>) -> Self {
        LexFault::NoMemory
    }
}
