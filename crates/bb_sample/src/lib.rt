//! Sample netlists: a valid netlist of any size, drawn from its number.
//!
//! - `sample` answers exactly the sample of its number, to each net and each gate.
//! - Each sample is a named netlist, whose nets are numbered by variables and from left to right; its gates have an order, and no name of
//!   it begins as this project's own do.
//! - Only memory can be wanted.
//!
//! Not promised: that draws are random in any sense. `specs/Draws.antt` says what is drawn, and `specs/Sample.antt` what a sample is.
#![tactic(auto)]

mod draws;
mod gates;
mod laws;
mod made;
mod nets;
mod ports;

pub use laws::{draws_are_known, pools_hold_what_came_before, samples_are_netlists};
pub use made::sample;
