//! The written netlist: the original with a self-test woven in.
//!
//! - `weave` answers, by sites, exactly the netlist that `bb_written` describes, and refuses nothing: every net has one driver, and the
//!   gates have an order, which it answers too.
//! - Nets are numbered by variables and from left to right, and there are at most 134,217,728 bits.
//! - It answers the net of each of the original's nets, and of each cell of the chain.
//! - Outside a test the written netlist runs as the original does.
//! - How many wires are added is a sum over cells, registers and sessions. With them there are at most 24 times the original's bits,
//!   5 a session and few more.
//!
//! `Written.antt` of `bb_written` says what is written, `Normal.antt` of `bb_normal` what it is to run as the original, and
//! `specs/Woven.antt` which nets are answered, `specs/Room.antt` how many wires are added.
#![tactic(auto)]

mod laws;
mod written;

pub use laws::added_wires_are_few;
pub use written::{Woven, weave};
