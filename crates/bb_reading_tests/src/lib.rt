//! Tests of reading: what modules and files denote, by examples.
//!
//! A crate of its own, so that the others are proved once, without their tests. It uses public calls alone.
#![tactic(auto)]

#[cfg(test)]
mod elaboration;
#[cfg(test)]
mod evaluation;
#[cfg(test)]
mod files;
