//! Small cases, worked: their plans by the rules, and their written netlists statement by statement, as they are documented.
//!
//! - Plans of the half adder and of a flip-flop that reads itself are valid, with their segments, duals and signatures, and changed ones fail
//!   each a rule at its place.
//! - `specs/Statements.antt` has the half adder's 62 statements, a toggle's, and those of a netlist without an input, without a session, at
//!   the least degree, and with two sessions: the table gives them.
//!
//! Nothing stands on this crate.
#![tactic(auto)]

mod laws;
mod plans;

pub use laws::statements_are;
pub use plans::{half_fails, half_is, toggle_fails, toggle_is};
