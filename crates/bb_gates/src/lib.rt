//! Gates: what the items of a module make, in the text's order.
//!
//! - `work_of` answers exactly the gates and flip-flops that `specs/Making.antt` of `bb_scope` says.
#![tactic(auto)]

mod bitwise;
mod cell_gates;
mod items;
mod prims;
mod steps;

pub use items::work_of;
