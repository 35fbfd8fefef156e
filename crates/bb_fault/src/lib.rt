//! What both sides of elaboration speak of: why a module denotes no netlist, how many bits it may have, and what its items have made.
//!
//! - `ElabFault` is the first fault of a module, or want of memory.
//! - A count of bits is exact below 2^64, and a fault says it so.
//! - `Work` holds the gates and flip-flops that items have made, over numbers of bits.
//!
//! `specs/Limits.antt` says what too many bits are, `specs/Firsts.antt` what the first fault along a list is, and `specs/Work.antt` what is
//! made.
#![tactic(auto)]

mod counts;
mod fault;
mod work;

pub use counts::{bit_count, range_width, too_many};
pub use fault::ElabFault;
pub use work::{Clocked, Work, constant};
