//! The compile job: from a netlist and settings to the four texts of its self-test.
//!
//! - `make` answers the texts of the plan that is chosen: the netlist with the plan's self-test woven in, the schedule, the signatures and
//!   the certificate. The first text denotes a netlist which is a self-test of the original, with those signatures.
//! - A refusal has its cause: a gate with more different inputs than the width, no degree in bounds, more cycles than allowed, or a length
//!   without a mask of full period, tried in this order.
//! - It counts the original's gates and flip-flops, the plan's cells, registers and sessions, and the cycles of the test.
//!
//! Not promised: the least plan, and that a fault of the original changes a signature. `specs/Artifacts.antt` says what is made, and
//! `specs/Files.antt` which signatures and which certificate the files have.
#![tactic(auto)]

mod artifacts;
mod certificate;
mod checked;
mod job;
mod signed;
mod summary;
mod texts;

pub use artifacts::{Artifacts, Summary};
pub use bb_choose::{ChoiceFault as MakeFault, Settings};
pub use job::make;
