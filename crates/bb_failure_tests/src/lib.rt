//! Tests of calls of the outside that fail, and of words that mean no command: how a call then ends, and what the files hold.
//!
//! A crate of its own, so that the others are proved once, without their tests. It uses public calls alone.
#![tactic(auto)]

#[cfg(test)]
mod call;
#[cfg(test)]
mod failures;
#[cfg(test)]
mod words;
