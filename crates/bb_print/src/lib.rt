//! The canonical text of a named netlist, and what it elaborates to.
//!
//! - `print` appends the canonical text of a netlist, or leaves the bytes as they were.
//! - Where a text may have its names and as many bits, and its gates have an order, that text elaborates to a netlist of
//!   the same design and to nothing else: to the netlist itself where its nets are numbered by variables and bits.
//!
//! The crate of spelling says what the canonical text is, and the crate of canonical texts to the parser which module it spells.
//! `specs/Elaborated.antt` says what that elaborates to.
#![tactic(auto)]

mod laws;
mod text;

pub use laws::canonical_elaborates;
pub use text::print;
