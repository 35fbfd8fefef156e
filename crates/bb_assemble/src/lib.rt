//! The named netlist of what a module's items make, without the clock's nets.
//!
//! - `assemble` answers exactly the netlist that `specs/NamedOf.antt` of `bb_drive` says, which is a valid one.
#![tactic(auto)]

mod assembly;
mod numbers;

pub use assembly::assemble;
