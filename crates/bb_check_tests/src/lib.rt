//! Tests of `check` and `sample`: netlists that pass, whoever made them, and the rule that another one breaks.
//!
//! A crate of its own, so that the others are proved once, without their tests. It uses public calls alone.
#![tactic(auto)]

#[cfg(test)]
mod call;
#[cfg(test)]
mod netlists;
#[cfg(test)]
mod passing;
#[cfg(test)]
mod samples;
