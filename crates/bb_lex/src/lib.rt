//! Tokens of Verilog text that comes in pieces of any length, or the first thing in it that spells none.
//!
//! - The tokens, their lines and the answer are those of the whole text, however it was cut.
//! - What stood in `out` before a call stands there after it, whatever the call answers.
//! - After a fault or want of memory each later call gives the same answer and changes nothing.
//! - Names in tokens are names, and numbers are in their ranges.
//! - Of the text at most one token is held, and of a name at most 1,025 bytes.
//!
//! `specs/Text.antt` says what tokens a whole text has, `specs/Machine.antt` what the reader does with each byte, and
//! `laws.rt` that the two agree. The rules are this project's profile of the lexical conventions of IEEE 1364.
#![tactic(auto)]

mod bytes;
mod constant;
mod laws;
mod lexer;
mod spelling;

pub use laws::{a_fault_stands, any_cutting, in_range, one_reading};
pub use lexer::Lexer;
