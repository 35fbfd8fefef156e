//! Valid plans: which plans test a netlist, each with the segments of its observers and their duals.
//!
//! - `validate` answers a plan with its segments exactly where it meets all rules, want of memory aside: a fault carries the first rule
//!   that fails and the place at which it first does, and no plan has both (`one_fault` of bb_rules).
//! - A segment has the numbers of its leaves' source cells in ascending order, and for each the least dual of its column among theirs.
//! - `first_misfit` tries the first ten rules in their order, which need no walk through gates, of any plan, and answers none exactly where
//!   all of them are met. Each has a call that answers none exactly where a plan meets it, else the exact place at which it fails first.
//!
//! The time is that of the plan's length and the netlist's size, and of one walk for each observer. `specs/Rules.antt` and
//! `specs/Valid.antt` of bb_rules say what a valid plan is, `specs/Answered.antt` what a refusal says, and `specs/Answers.antt` what the
//! answers of the first ten rules mean.
#![tactic(auto)]

mod bounds;
mod chain;
mod compacting;
mod conflicts;
mod first;
mod layout;
mod lines;
mod scan;
mod segments;
mod serving;
mod sources;
mod standing;
mod stops;
mod table;
mod validity;
mod walked;

pub use first::{Misfit, first_misfit};
pub use validity::validate;
