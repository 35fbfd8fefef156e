//! Why a call answers nothing.

ghost use Rattle.std.specs.Prelude.{◌≡◌};
ghost use Rattle.bb_read.specs.declared.stop.Stop.TheVariants.{NoMemory};

use crate::refusal::Refusal;
use std::alloc::AllocError;

/// Why a call answers nothing.
#[derive(Drop)]
pub enum Stop {
    /// A file couldn't be read.
    Read,
    Refused(Refusal),
    NoMemory,
}

impl From<AllocError> for Stop {
    ghost from_gives = { λ _ e. e ≡ NoMemory };

    fn from(_: AllocError) -> Self {
        Stop::NoMemory
    }
}
