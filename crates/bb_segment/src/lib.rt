//! Segments: where walks back from a net end, and what the gates on the way compute. And cuts: nets made stops, so that no gate reads too
//! many sources.
//!
//! - A path back passes from a net that is no stop to what its gate reads; the leaves of a line are the stops that paths reach.
//! - `support` answers exactly the leaves, ascending, or how many they are where these are more than 16. It takes no memory.
//! - What a valuation gives a line is the bit of its segment's function of the bits of its leaves, whatever the gates mean; that
//!   function gives one bit and no other where gates have an order.
//! - A netlist has one choice of cuts, and with them no gate's support has more nets than the width.
//! - `cuts` answers that choice: while some gate's support is wider than asked, the first such gate in order has its input with the most
//!   leaves cut. It refuses exactly the first gate by number with more different inputs than the width.
//!
//! Not promised: the fewest cuts. Each net's support is kept in a table; after a cut only what stands behind it in the fan-out is
//! computed again, by a queue of places in the order.
//!
//! `bb_terms` has the definitions: `specs/Paths.antt` says where a walk leads, `specs/Support.antt` what a support is,
//! `specs/Function.antt` what a line's function gives, `specs/Change.antt` what a changed gate is, and `specs/Cuts.antt` what is cut.
#![tactic(auto)]

mod choice;
mod cut_fault;
mod cutting;
mod laws;
mod readers;
mod sets;
mod supports;
mod walk;

pub use choice::cuts;
pub use cut_fault::CutFault;
pub use laws::{
    changes_elsewhere, leaves_by_steps, lines_compute, one_bit, one_choice, one_support,
    paths_join, short_supports, some_bit,
};
pub use supports::{Wide, is_stop, support};
pub use walk::Walk;
