//! Tests of samples: worked texts, and the largest one.
//!
//! A crate of its own, so that the others are proved once, without their tests. It uses public calls alone.
#![tactic(auto)]

#[cfg(test)]
mod texts;
