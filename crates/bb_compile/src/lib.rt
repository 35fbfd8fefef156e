//! What `compile` and `sample` write and say, made before the first byte is written.
//!
//! - `prepare` answers the four files of what is made of the input's text: a text that denotes the netlist with its self-test, the schedule
//!   of the plan that was chosen, its signatures and its certificate; and the line that counts them.
//! - A text that is no module's is refused by the first thing that breaks it, with its line, one whose module denotes no netlist by the
//!   module's first fault, and one of whose netlist no plan is chosen by what is lacking.
//! - `prepare_sample` answers the same of the sample netlist of a number, and before it a file whose text denotes that sample.
//! - What is made and a refusal never stand together, and where there is room for a plan none is refused.
//!
//! `specs/Made.antt` says what is made, `specs/Causes.antt` why a call is refused, and `specs/Outputs.antt` which files hold it.
#![tactic(auto)]

mod compiled;
mod done;
mod laws;
mod plan;
mod prepared;
mod sampled;

pub use compiled::prepare;
pub use laws::{made_or_refused, room_is_enough, sample_texts_denote};
pub use prepared::Prepared;
pub use sampled::prepare_sample;
