//! Tests of the plan that is chosen for a netlist: worked plans, and each refusal.
//!
//! A crate of its own, so that `bb_choose` is proved once, without its tests. It uses public calls alone.
#![tactic(auto)]

#[cfg(test)]
mod faults;
#[cfg(test)]
mod netlists;
#[cfg(test)]
mod plans;
#[cfg(test)]
mod rows;
