//! Tests of planning, from the equations of a netlist to its columns: worked values, and calls on their happy path and on each refusal.
//!
//! A crate of its own, so that the others are proved once, without their tests. It uses public calls alone.
#![tactic(auto)]

#[cfg(test)]
mod chosen;
#[cfg(test)]
mod columns;
#[cfg(test)]
mod cones;
#[cfg(test)]
mod cycles;
#[cfg(test)]
mod forms;
#[cfg(test)]
mod lanes;
#[cfg(test)]
mod netlists;
#[cfg(test)]
mod plans;
#[cfg(test)]
mod registers;
#[cfg(test)]
mod signs;
#[cfg(test)]
mod vectors;
