//! Tests of canonical texts: what is read and printed again, and the line of a fault.
//!
//! A crate of its own, so that the others are proved once, without their tests. It uses public calls alone.
#![tactic(auto)]

#[cfg(test)]
mod canonical;
