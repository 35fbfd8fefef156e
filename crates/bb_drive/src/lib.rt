//! Nets of what a module's items make: how often each bit is driven and read, and which of them is the clock.
//!
//! - `driven_nets` answers the bits that are nets, or the first net with two drivers, or else the first without one.
//! - `clock_in` answers the clock and the nets that it doesn't feed, or the first fault of clock pins, of two clocks, or of a clock
//!   that is read as data.
//!
//! `specs/Nets.antt` says what drives and reads a bit, `specs/Clock.antt` what the clock is, and `specs/NamedOf.antt` what named netlist
//! there is by them.
#![tactic(auto)]

mod clock;
mod drivers;
mod marks;
mod nets;
mod origins;

pub use clock::{Clock, clock_in};
pub use nets::{all_variables, driven_nets, index_of};
