//! Names and widths: the faults of names, ports, cells, pins, selects and widths of a module, and how many nets its expressions make.
//!
//! - `table_of` answers the variables in the order of their first uses, and the variable of each use.
//! - `text_fault` answers the first fault of names, declarations, ports, cells, pins, selects, widths and the number of bits, before
//!   any gate is made.
//!
//! `bb_scope` has the definitions: `specs/Text.antt` says what that fault is, `specs/Parts.antt` and `specs/Sizes.antt` what the faults and
//! nets of items and expressions are.
#![tactic(auto)]

mod parts;
mod pins;
mod ports;
mod sizes;
mod table;
mod text;

pub use ports::port_fault;
pub use table::{Used, reserved_fault, table_of};
pub use text::{Bound, checked, text_fault};
