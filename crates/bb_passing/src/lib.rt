//! What is made of a netlist passes the judge: the four texts of a self-test say values that meet all eighteen rules beside the original.
//!
//! It is a law, as the contract of a function without a body: nothing is computed here. `specs/Passing.antt` says of which values it speaks.
#![tactic(auto)]

mod laws;

pub use laws::made_files_pass;
