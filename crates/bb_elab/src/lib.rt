//! Elaboration: what a module denotes.
//!
//! - `elaborate` answers exactly what `specs/Outcome.antt` of `bb_meaning` says that a module denotes: the named netlist, with the order of
//!   its gates, or the first fault.
//! - Each module of a text has exactly one outcome, and what one without a fault but a loop denotes is a named netlist.
//! - In every cycle of that netlist the statements of the text hold, by the operators of the language (`netlists_mean`).
//! - `text_fault` answers the first fault of names, declarations, ports, cells, pins, selects, widths and the number of bits, before
//!   any gate is made. It counts by arithmetic the nets that the gates then made have.
#![tactic(auto)]

mod laws;
mod outcome;

pub use bb_fault::ElabFault;
pub use bb_width::text_fault;
pub use laws::{denotes_a_netlist, has_an_outcome, netlists_mean, one_outcome};
pub use outcome::elaborate;
