//! Tests of refused texts: the words of each fault, and which of two is named.
//!
//! A crate of its own, so that the others are proved once, without their tests. It uses public calls alone.
#![tactic(auto)]

#[cfg(test)]
mod call;
#[cfg(test)]
mod faults;
