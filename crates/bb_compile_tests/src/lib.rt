//! Tests of `compile`: its four files to the last byte, and what it counts.
//!
//! A crate of its own, so that the others are proved once, without their tests. It uses public calls alone.
#![tactic(auto)]

#[cfg(test)]
mod bytes;
#[cfg(test)]
mod call;
#[cfg(test)]
mod files;
#[cfg(test)]
mod plans;
