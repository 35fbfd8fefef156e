//! What a sound self-test is, and what holds of each test run of a written netlist.
//!
//! - A test run is, symbol by symbol, a trace of the table of statements, whatever the original's gates are changed to;
//!   and there is one from every state under all inputs.
//! - In each session the registers that generate hold their code bits, those that compact the signatures of their lines so far, and
//!   these come out, the chain's last cell first; 0 comes out in every other cycle.
//! - Each line follows its segment's function, each vector of its leaves comes in each session in which its register compacts, and a
//!   change that the segment's function shows is shown there by the line.
//! - A netlist that has the drivers of the written one of a valid plan is a self-test, with the plan's signatures.
//!
//! `specs/SelfTest.antt` says what a self-test is; each of its clauses has a file of its own. `specs/Tested.antt` says what holds of
//! changed netlists too.
#![tactic(auto)]

mod laws;
mod walk_laws;

pub use laws::{
    changes_show, mirrors_are_self_tests, mirrors_are_tested, test_runs_are_traces, test_runs_exist,
};
pub use walk_laws::{
    covers_every_gate, functions_agree, lines_are_bounded, lines_have_segments, reads_differ,
    segments_agree, sites_tell_nets_apart, walks_renamed,
};
