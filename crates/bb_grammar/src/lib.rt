//! That the parser agrees with the grammar: laws about the tokens and the texts that a module has.
//!
//! - A list of tokens denotes one module at most, and where it denotes one, the parser gives this one.
//! - A token is refused exactly where those before it go on to a whole module and with it no tokens do.
//! - The end is refused exactly where the tokens go on to a whole module and are none.
//! - Each text is a module's or has a first flaw, not both, and has one first flaw at most.
//! - Where each token is one that a text may have, the module has names for names, its numbers are in their ranges, and its
//!   gates have operators of keywords.
//!
//! `specs/Texts.antt` says what a text denotes: a module, or its first flaw. The other definitions are bb_parse's: `specs/Grammar.antt`
//! has the productions, `specs/Meaning.antt` what module a tree stands for, and `specs/Machine.antt` the machine that the parser follows.
#![tactic(auto)]

mod laws;

pub use laws::{cut_short, first_bad_token, in_parts, in_range, one_flaw, one_module};
