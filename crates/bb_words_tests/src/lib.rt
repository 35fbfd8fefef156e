//! Tests of the words of a call: worked calls, each option in both ways, and what is no call. Nothing stands on this crate.
#![tactic(auto)]

#[cfg(test)]
mod calls;
