//! Laws of test plans: what follows where cells, registers and sessions meet the rules.
//!
//! - A rule holds or fails, never both, and fails first at one place; so a plan has one first fault at most, and a valid plan none.
//! - Where cells fit and nets are served, each leaf of a line has exactly one source cell, each flip-flop a cell that gives its q and one
//!   that observes its d, and each gate that an output or a d depends on lies in the segment of an observer.
//! - In a session each register that compacts has observers alone, and the leaves of its lines have their source cells in registers
//!   that generate.
//! - Each vector of bits of an observer's leaves is their code at a state of a full walk.
//! - A plan has exactly one list of signatures, and one list of segments at most.
//!
//! The rules, what a valid plan is and what its signatures are stand in `bb_terms`, and the code that judges a plan in the crates above.
//! `specs/Covered.antt` says which gates are observed; `specs/Half.antt` and `specs/Toggle.antt` have worked plans, on which
//! `bb_statements` tries the rules.
#![tactic(auto)]

mod laws;

pub use laws::{
    all_observed, cells_stand, duals_are, flops_have_cells, generates, kinds_meet, lines_start,
    one_fault, one_source, segments_are_one, signatures_are_one, stops_agree, vectors_come,
};
