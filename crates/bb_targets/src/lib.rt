//! Targets: which bits of a text's variables the inputs and items of a module drive, known before any gate is made.
//!
//! - `twice_fault` answers exactly the fault of the first bit of the variables that has two drivers.
//! - It is the first fault of drivers that the gates then made have (`told_before_gates`).
//!
//! The time is that of the text's length and of the variables' bits, however often wide variables are driven. Not promised: that no
//! made net has two drivers.
//!
//! `specs/Targets.antt` says what is driven.
#![tactic(auto)]

mod fault;
mod items;
mod laws;
mod marks;

pub use fault::twice_fault;
pub use laws::told_before_gates;
