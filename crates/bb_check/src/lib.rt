//! The judge's reading: a netlist and the four files of its self-test, whoever wrote them.
//!
//! - `check` reads the input and then the netlist with its self-test, the schedule, the signatures and the certificate. Each is read whole
//!   and is of its form before the next is begun, and the rules come last. What is first amiss is answered.
//! - Files that pass are texts of a self-test of the input's netlist by the plan, with the signatures that they list.
//! - Files that pass have no refusal, and no files have two (`passed_or_refused`, `one_refusal`). So files that meet all rules are never
//!   refused, whoever wrote them.
//!
//! Nothing is written. `specs/Passed.antt` says which texts pass, `specs/Refused.antt` why others are refused, and `specs/Told.antt` what
//! files are then told to be. The rules stand in `bb_audit`, and the forms of the files in `bb_forms`.
#![tactic(auto)]

mod files;
mod form;
mod laws;
mod netlists;

pub use files::check;
pub use laws::{audit_is_enough, one_refusal, passed_or_refused};
