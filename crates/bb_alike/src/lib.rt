//! Two named netlists, compared net by net, by sites.
//!
//! - `difference` answers nothing exactly where a netlist has another's module, ports, clock, nets and drivers, want of memory aside; else the
//!   first of the other's nets that differs, counted from 1.
//! - Ports are compared with their ranges, and a gate's inputs in order. The order of statements, the ranges of wires, and wires that nothing
//!   stands on are a netlist's own business.
//!
//! `specs/Alike.antt` says when netlists agree, and where one first differs.
#![tactic(auto)]

mod comparison;
mod drivers;
mod front;
mod nets;

pub use comparison::difference;
