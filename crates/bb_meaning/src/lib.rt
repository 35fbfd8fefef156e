//! What a module denotes, and that what its text says holds of the bits of what its items make: laws alone.
//!
//! - `specs/Outcome.antt` says what a module denotes, a named netlist or its first fault: variables, gates in the text's order,
//!   drivers, the clock and loops. `specs/Denotes.antt` says the same of a text.
//! - `specs/Values.antt` has the value of an expression, a list of bits, by the operators of the language; `specs/Statements.antt` what
//!   equations, gates and cells say of bits.
//! - In every cycle in which the gates that are made meet their equations, all statements of the text hold, and the nets of an
//!   expression have the bits of its value.
//! - The nets that are counted before any gate is made are those that are then made.
#![tactic(auto)]

mod laws;

pub use laws::{counted_nets_are_made, expressions_mean, statements_hold};
