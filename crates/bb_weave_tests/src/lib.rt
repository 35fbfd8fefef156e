//! Tests of netlists with their self-tests: worked values of what is written and of its runs.
//!
//! A crate of its own, so that the others are proved once, without their tests. It uses public calls alone.
#![tactic(auto)]

#[cfg(test)]
mod netlists;
#[cfg(test)]
mod plans;
#[cfg(test)]
mod premises;
#[cfg(test)]
mod runs;
#[cfg(test)]
mod statements;
#[cfg(test)]
mod texts;
#[cfg(test)]
mod woven;
