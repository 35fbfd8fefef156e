//! The reader of canonical texts.
//!
//! - What `read_canonical` accepts is the canonical text of the netlist that it answers.
//! - A text is the canonical text of one design at most: a netlist that is printed and read again has the same
//!   module, ports, clock and drivers. The numbers of nets may differ.
//! - The canonical text of a netlist within a builder's limits is read, where there is memory.
//! - A refusal names the first line that may not stand in its place, by its form and the lines before it, or that is
//!   missing. Where all lines may stand, no netlist within a builder's limits has this text.
//!
//! The crate of lines says which line may stand where, and the crate of spelling what the canonical text is. `specs/Toward.antt` and
//! `specs/Along.antt` are for the proof alone: a draft on the way to a netlist whose text is read.
#![tactic(auto)]

mod draft;
mod laws;
mod read;

pub use draft::CanonFault;
pub use laws::one_design;
pub use read::read_canonical;
