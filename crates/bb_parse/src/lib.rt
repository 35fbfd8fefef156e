//! The modules of Verilog text: what module its tokens denote, or the first token at which none goes on.
//!
//! - The parser gives the module that the tokens denote. It refuses the first token with which no tokens make a whole module, and
//!   the end where the tokens are none; the fault has its line.
//! - After a fault or want of memory each later call gives the same answer and changes nothing.
//! - What must still follow lies on the heap: a nested text takes two symbols of it for each `(`.
//!
//! `specs/Grammar.antt` has the productions, over the syntax trees of `specs/Trees.antt`, and `specs/Meaning.antt` says what
//! module a tree stands for. The parser follows the machine of `specs/Machine.antt`, and the laws of bb_grammar say that the machine
//! agrees with the grammar, and what module or first flaw a text has. The grammar is this project's profile of Verilog (IEEE 1364).
#![tactic(auto)]

mod declaration;
mod draft;
mod expression;
mod fault;
mod header;
mod parser;
mod reader;
mod sequence;
mod stack;
mod statement;
mod symbol;
mod syntax;

pub use fault::ParseFault;
pub use parser::Parser;
pub use sequence::Sequence;
pub use syntax::{Conns, Decl, Expr, Header, Item, Module, Ref, Step};
