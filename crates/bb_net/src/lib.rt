//! Named netlists: netlists of one-bit nets with names, and the builder that makes them.
//!
//! - A named netlist has a bit name for each net, no two alike, and a clock exactly where it has a flip-flop.
//! - A builder gives the netlist of its calls, or names the first thing that is wrong.
//! - Its nets differ by site (their variable's name, and their place from the left whatever the written range is), and it has the same runs by sites.
//!
//! `specs/Sites.antt` says what sites are. What names are, what the calls of a builder make, what a netlist is, and what its runs and an
//! order are stand in `bb_base`.
#![tactic(auto)]

mod builder;
mod laws;
mod named;

pub use builder::Builder;
pub use laws::{nets_are_bits, runs_by_site, sites_are_designs, sites_differ};
pub use named::Named;
