//! The terms in which a self-test is told: definitions, with the types that they speak of.
//!
//! - `specs/Paths.antt` says where a walk back from a line leads, `specs/Support.antt` what the leaves of a line are, `specs/Function.antt`
//!   what its segment computes, `specs/Cuts.antt` what is cut, and `specs/Change.antt` what a changed gate is.
//! - `specs/Register.antt` has the complete register, `specs/Walk.antt` its walk, `specs/OnBits.antt` the same on lists of bits, and
//!   `specs/Signature.antt` the signature register.
//! - `specs/Kinds.antt` has the kinds of cells, `specs/Plan.antt` what a plan is, `specs/Lines.antt` the lines that cells take,
//!   `specs/Rules.antt` the rules, each with the place at which it first fails, `specs/Valid.antt` what a valid plan and its segments are,
//!   and `specs/Signatures.antt` what its signatures are.
//! - `specs/Wires.antt` has the symbols of the nets that a self-test adds, with their names, `specs/Controller.antt` and
//!   `specs/Registers.antt` the table of the gates that it adds, `specs/Reads.antt` what stands for a cell's bit, for a read net and for a
//!   cell's line, and `specs/Numbering.antt` which net stands for a symbol.
//!
//! The code that finds, judges or makes any of this stands in the crates above, and so do the laws about it but the few that several of
//! them need.
#![tactic(auto)]

mod fault;
mod kind;
mod plan;
mod start;
mod valid;
mod wire;

pub use fault::PlanFault;
pub use kind::Kind;
pub use plan::{Cell, Plan, Register, Session};
pub use start::Start;
pub use valid::{Segment, Valid};
pub use wire::Wire;
