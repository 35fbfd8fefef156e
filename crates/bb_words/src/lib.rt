//! The words of a call: which command they mean.
//!
//! - Words that are answered with a command mean it, and words mean one command at most.
//! - Words are refused as no call only where they mean no command.
//! - A command that would write over a file that it reads is refused as such, and in no other case.
//!
//! `specs/Calls.antt` says what words mean, `specs/Options.antt` has the table of options, and `specs/Commands.antt` the names that a
//! command reads and writes. `specs/Parts.antt` serves proofs, and no public contract cites it.
#![tactic(auto)]

mod call;
mod command;
mod laws;
mod number;
mod piece;
mod said;
mod setting;

pub use call::words;
pub use command::{Command, Settings, WordsFault};
pub use laws::one_command;
