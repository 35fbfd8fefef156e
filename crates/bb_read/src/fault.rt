ghost use Rattle.std.specs.Prelude.{◌≡◌};
ghost use Rattle.bb_read.specs.Faults.{of_lex, of_parse};
ghost use Rattle.bb_read.specs.declared.fault.ReadFault.TheVariants.{NoMemory};

use bb_base::LexFault;
use bb_fault::ElabFault;
use bb_parse::ParseFault;
use std::alloc::AllocError;

/// Why a file gives no named netlist.
#[derive(Drop)]
pub enum ReadFault {
    /// The store failed.
    Read,
    /// More bytes come than the limit.
    TooLong,
    /// The first thing in the text that is no token.
    Lex(LexFault),
    /// The first place in the text at which no module goes on.
    Parse(ParseFault),
    /// The first fault of the text's module.
    Elab(ElabFault),
    /// Memory ran out.
    NoMemory,
}

impl From<AllocError> for ReadFault {
    ghost from_gives = { λ _ e. e ≡ NoMemory };

    fn from(_: AllocError) -> Self {
        ReadFault::NoMemory
    }
}

impl From<LexFault> for ReadFault {
    ghost from_gives = { λ fault e. e ≡ of_lex fault };

    fn from(fault: LexFault) -> Self {
        match fault {
            LexFault::NoMemory => ReadFault::NoMemory,
            LexFault::BadByte { line } => ReadFault::Lex(LexFault::BadByte { line }),
            LexFault::BadNumber { line } => ReadFault::Lex(LexFault::BadNumber { line }),
            LexFault::LongName { line } => ReadFault::Lex(LexFault::LongName { line }),
            LexFault::OpenComment { line } => ReadFault::Lex(LexFault::OpenComment { line }),
        }
    }
}

impl From<ParseFault> for ReadFault {
    ghost from_gives = { λ fault e. e ≡ of_parse fault };

    fn from(fault: ParseFault) -> Self {
        match fault {
            ParseFault::NoMemory => ReadFault::NoMemory,
            ParseFault::Unreadable { line } => ReadFault::Parse(ParseFault::Unreadable { line }),
        }
    }
}
