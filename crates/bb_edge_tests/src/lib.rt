//! Tests of stores and sinks: what a call answers, and where one fails.
//!
//! A crate of its own, so that the others are proved once, without their tests. It uses public calls alone.
#![tactic(auto)]

#[cfg(test)]
mod outside;
