//! Tests of hostile files: changes of schedules, signatures and certificates, and files that end too early, each with what `check` says.
//!
//! A crate of its own, so that the others are proved once, without their tests. It uses public calls alone.
#![tactic(auto)]

#[cfg(test)]
mod call;
#[cfg(test)]
mod forms;
#[cfg(test)]
mod fronts;
