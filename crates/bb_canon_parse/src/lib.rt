//! What a canonical text is to the lexer and the parser: it meets neither a lexical nor a grammatical fault, and is the text of the
//! module that its design spells, a declaration, a gate or a flip-flop in each line.
//!
//! `specs/Printed.antt` says which module that is.
#![tactic(auto)]

mod laws;

pub use laws::canonical_denotes;
