//! Why a file gives no named netlist.

ghost use Rattle.std.specs.Prelude.{◌≡◌};
ghost use Rattle.bb_read.specs.NamedFaults.{named_fault};

use crate::fault::ReadFault;
use crate::refusal::TextRefusal;

/// Why a file gives no named netlist.
#[derive(Drop)]
pub enum NamedFault {
    /// The store failed.
    Read,
    /// Its text denotes none.
    Refused(TextRefusal),
    NoMemory,
}

impl From<ReadFault> for NamedFault {
    ghost from_gives = { λ fault e. e ≡ named_fault fault };

    fn from(fault: ReadFault) -> Self {
        match fault {
            ReadFault::Read => NamedFault::Read,
            ReadFault::TooLong => NamedFault::Refused(TextRefusal::TooLong),
            ReadFault::Lex(fault) => NamedFault::Refused(TextRefusal::Lex(fault)),
            ReadFault::Parse(fault) => NamedFault::Refused(TextRefusal::Parse(fault)),
            ReadFault::Elab(fault) => NamedFault::Refused(TextRefusal::Elab(fault)),
            ReadFault::NoMemory => NamedFault::NoMemory,
        }
    }
}
