use std::alloc::AllocError;

/// What the options of a call set.
#[derive(Clone, Copy, Debug, PartialEq, Eq)]
pub struct Settings {
    /// The most leaves that a segment may have.
    pub width: u32,
    /// The least degree of the complete register that is tried.
    pub min_degree: u32,
    /// The greatest.
    pub max_degree: u32,
    /// The most cycles that a test may take.
    pub max_cycles: u64,
    /// The most cells of a register.
    pub register: u32,
}

/// What a call asks for.
#[derive(Debug, Drop)]
pub enum Command {
    /// Compiles the netlist of the file `input` into files whose names begin with `prefix`.
    Compile {
        input: String,
        prefix: String,
        settings: Settings,
    },
    /// Checks such files against the netlist of the file `input`.
    Check {
        input: String,
        prefix: String,
    },
    /// Makes the sample netlist of a number, and compiles it.
    Sample {
        number: u32,
        prefix: String,
        settings: Settings,
    },
}

/// Why words give no command.
#[derive(Clone, Copy, Debug, PartialEq, Eq)]
pub enum WordsFault {
    /// They mean none.
    Usage,
    /// Their command would write a file that it reads.
    SameName,
    NoMemory,
}

impl From<AllocError> for WordsFault {
    ghost use Rattle.std.specs.Prelude.{◌≡◌};
    ghost use Rattle.bb_words.specs.declared.command.WordsFault.TheVariants.{NoMemory};

    ghost from_gives = { λ _ e. e ≡ NoMemory };

    fn from(_: AllocError) -> Self {
        WordsFault::NoMemory
    }
}
