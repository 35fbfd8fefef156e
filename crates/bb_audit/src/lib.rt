//! The judge of a self-test's files, whoever wrote them: a netlist, its plan, its signatures and its certificate, beside the original.
//!
//! - `audit` passes files exactly where they meet all eighteen rules, want of memory aside: a refusal carries the first rule that fails and
//!   the place at which it first does, and no files both pass and have one (`one_audit`).
//! - Files that pass are a self-test of the original, with the signatures that they list (`passing_is_good`).
//! - The netlist is compared net by net, by sites: the order of statements, wires' ranges and wires that nothing stands on are its own
//!   business. Ports are compared with their ranges, and a gate's inputs in order.
//!
//! Nothing here depends on how a plan is chosen. `specs/Passing.antt` has the rules, `specs/Faults.antt` their places, `specs/Certified.antt`
//! what a certificate lists, `Alike.antt` of `bb_alike` when netlists agree, and `specs/Signed.antt` what signatures are listed.
#![tactic(auto)]

mod duals;
mod fault;
mod judge;
mod laws;
mod lines;
mod sessions;

pub use fault::AuditFault;
pub use judge::audit;
pub use laws::{one_audit, passing_is_good};
