//! The order of a netlist's gates, and laws about its runs.
//!
//! - Gates are ordered by level, then by number, or the loop is named that leaves some without a level.
//! - A netlist has the same runs under any names for its nets.
//!
//! `bb_base` has the definitions: `specs/Net.antt`, `specs/Run.antt`, `specs/Order.antt`, and `specs/Levels.antt` for levels.
#![tactic(auto)]

mod laws;
mod levels;
mod order;

pub use laws::{orders_follow_drivers, runs_by_name};
pub use order::{Order, OrderFault, find_order};
