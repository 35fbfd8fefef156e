//! The written netlist, as a table over symbols, and laws about what a self-test adds.
//!
//! - Outside a test the written netlist runs as the original does, and it has no loop where the original has none.
//! - The added wires of a valid plan are added nets, and no two are equal.
//! - Whatever the written netlist of a valid plan reads is driven.
//!
//! The symbols, their names and the added gates stand in `bb_terms`; `bb_statements` has the table of small cases, statement by statement.
#![tactic(auto)]

mod laws;

pub use laws::{inner_wires_differ, reads_are_driven, runs_alike};
