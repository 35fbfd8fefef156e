//! What tests of several crates share: netlists with the files that are made of them, stores in memory, and how a call ends.
//!
//! The files of a netlist are those that another program makes of it, which shares nothing with this one.
#![tactic(auto)]

pub mod benchmark;
mod call_end;
pub mod canonical;
pub mod constant;
pub mod half;
pub mod no_gate;
pub mod parity_tree;
mod stores;
pub mod swap;
pub mod toggle;
pub mod wire;
mod words;

pub use call_end::CallEnd;
pub use stores::{READ, WRITTEN, hold_the_same, holds, replace, store_of, text_in};
pub use words::words_of;
