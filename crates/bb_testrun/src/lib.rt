//! What holds in each cycle of a test run.
#![tactic(auto)]

mod laws;

pub use laws::{
    chains_come_out, changes, every_vector_meets, full_walks_cycle, lines_read, test_runs,
};
