//! The signatures of a plan's sessions, computed on the original netlist.
//!
//! - `signatures` answers, session by session, the signature of each register that compacts there, want of memory aside. By a law of
//!   bb_rules a plan has exactly one such list.
//!
//! A source has the same code bits in every session, so a register's signature doesn't depend on the session, and one pass over the
//! 2^degree states of the complete register serves all sessions. It takes 64 states at once: a net has a word, with a state in each lane.
//! Each net that is a source has the bits that its column picks, and every other net what its gate gives, in the gates' order. A net with a
//! Cut cell has two words: readers see the source's, and the cell takes that of the gate. Then each register takes in its lines, state by
//! state. All memory is taken before the first state; no contract says so.
//!
//! `specs/Signatures.antt` of bb_rules says what signatures are, `specs/Bits.antt` what bits the nets have at a state,
//! `specs/Evaluation.antt` how they are computed, and `specs/Compactors.antt` what a register holds.
#![tactic(auto)]

mod bits;
mod columns;
mod compactors;
mod evaluation;
mod lines;
mod sessions;
mod starts;
mod walk;

pub use sessions::signatures;
