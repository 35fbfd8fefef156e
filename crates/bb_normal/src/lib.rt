//! Outside a test the written netlist runs as the original does.
//!
//! - A netlist mirrors the written one where module, ports, clock and the driver of each net are the same; its traces and runs are,
//!   symbol by symbol, those of the table of statements.
//! - Outside a test each net of the original has the original's bit in each cycle, from every corresponding start.
//! - No two nets of the written netlist have one site, and its gates have an order; so it has a run from every start.
#![tactic(auto)]

mod laws;

pub use laws::{keeps_bits, mirrors_itself, mirrors_traces, runs_normally, written_sites_differ};
