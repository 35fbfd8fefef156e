//! The plan that is chosen for a netlist, whole: cuts, cells, registers, sessions, columns, degree and masks.
//!
//! - `choose` answers a plan that is chosen as `specs/Choice.antt` says, with the cycles that its test takes, which are within the limit.
//! - A refusal has its cause, and causes are tried in one order: a gate with more different inputs than the width, no degree in bounds,
//!   more cycles than allowed, a length without a mask of full period.
//! - A plan that is chosen for a netlist meets every rule of plans (`chosen_plans_are_valid`): cells, registers and sessions meet theirs
//!   whatever the masks and the columns are (`specs/ChosenPlan.antt`).
//! - Where there is room for a plan, none of these causes stands (`enough_is_chosen`), since registers are chosen in one way
//!   (`one_arrangement`).
//!
//! Not promised: the least plan. `specs/Arranged.antt` says which registers and segments are chosen, and `specs/Choice.antt` what plan
//! they have and what is lacking where there is none; `specs/Enough.antt` says when there is room for one.
#![tactic(auto)]

mod arranged;
mod cells;
mod choice;
mod coding;
mod completeness;
mod fault;
mod laws;
mod masks;
mod sessions;
mod sources;

pub use bb_words::Settings;
pub use cells::chosen_cells_meet_the_rules;
pub use choice::{Chosen, choose};
pub use completeness::{enough_is_chosen, half_has_room, one_arrangement};
pub use fault::ChoiceFault;
pub use laws::chosen_plans_are_valid;
pub use sessions::chosen_sessions_meet_the_rules;
