//! Tests of the compile job: worked values of the four texts, of what is counted, and of refusals.
//!
//! A crate of its own, so that the others are proved once, without their tests. It uses public calls alone.
#![tactic(auto)]

#[cfg(test)]
mod made;
#[cfg(test)]
mod premises;
#[cfg(test)]
mod rows;
