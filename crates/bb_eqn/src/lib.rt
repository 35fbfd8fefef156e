//! What one cycle of a netlist computes: the bits of all nets, and the next state. And the same for 64 cases at once, a case in each lane
//! of a word.
//!
//! - `settle` fills the one valuation in which inputs and flip-flops have given bits and each gate's equation holds.
//! - `cycle` does the same and leaves the next state, the bits of the flip-flops' d's.
//! - `evaluate` does it for a list of gates none of which reads what it or a later one drives.
//! - `source_words` gives the code bits of columns at 64 states of the complete register, one after the other.
//! - `gate_word` gives what a gate gives in each lane, and `eval` evaluates gates one after another.
//! - `transpose` exchanges the rows and the lanes of 16 words, and `lines_at` reads from them what the words had in one lane.
//! - `misr_step` is one cycle of a signature register.
//!
//! None of them takes memory. That there is one valuation is a law of `bb_runs`. `specs/Values.antt` reads a list as the bits of nets, and
//! `specs/Lanes.antt` says what the lanes of words are.
#![tactic(auto)]

mod clock;
mod exchange;
mod gate;
mod lanes;
mod sequence;
mod signature;
mod source;

pub use clock::{cycle, settle};
pub use exchange::{lines_at, transpose};
pub use gate::evaluate;
pub use lanes::gate_word;
pub use sequence::eval;
pub use signature::misr_step;
pub use source::source_words;
