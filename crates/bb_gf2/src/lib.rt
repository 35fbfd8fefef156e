//! Vectors of bits over the field of two elements, as numbers: their spans, independence and duals. And the registers that step over
//! them: the complete register, a linear feedback shift register (LFSR) with zero insertion, whose walk from 0 can meet every state,
//! and the signature register (a MISR).
//!
//! - `duals` answers for each row the least vector whose code bit is 1 at that row alone. It answers
//!   the least nonempty set of rows that has the exclusive or 0 exactly where there is one.
//! - A `Basis` stands for a span. `add` answers exactly whether a vector was outside, and then the
//!   span has it too; `reduce` answers the least number that a vector makes with a member.
//! - For independent rows and any vector of bits, the exclusive or of the duals that the vector
//!   chooses is a state with that vector as its code bits (`any_vector`).
//! - `next` answers the next state exactly.
//! - `walk` answers `Full` exactly where every state of the degree is met before 2^degree steps, and
//!   otherwise the steps after which the walk is first back at 0. A `Full` register carries the fact.
//! - `taps` answers the least mask of full period, or that there is none.
//! - No two states have one next state, and a full walk is back at 0 after all its states
//!   (`full_walks_return`). It meets every vector of code bits of columns with duals
//!   (`every_vector_comes`).
//! - The last state of a full walk has a 1 in the last place alone, and then it goes round (`ends_last`).
//! - The registers on numbers are those on lists of bits (`registers_on_bits`).
//! - The signature grows by a step a cycle (`signature_grows`) and is linear (`signatures_are_linear`).
//!   States and signatures keep their register's length (`keeps_length`).
//! - No call takes memory.
//!
//! Not promised: that each degree has a mask of full period.
//!
//! `bb_base` has the definitions of vectors: `specs/Parity.antt` says what a code bit is, `specs/Span.antt` what a span and a dependent set
//! of rows are, and `specs/Dual.antt` what a dual is; `specs/Bits.antt` has numbers as lists of bits. `bb_terms` has those of registers:
//! `specs/Register.antt` the register, `specs/Walk.antt` its walk, `specs/OnBits.antt` the same on lists of bits, and
//! `specs/Signature.antt` the signature.
#![tactic(auto)]

mod laws;
mod masks;
mod parities;
mod register_laws;
mod spans;
mod states;
mod vectors;
mod walks;

pub use laws::{any_vector, bits_agree};
pub use masks::{NoFullPeriod, taps};
pub use parities::{code_bit, parity};
pub use register_laws::{
    ends_last, every_vector_comes, full_walks_return, keeps_length, registers_on_bits,
    signature_grows, signatures_are_linear,
};
pub use spans::Basis;
pub use states::next;
pub use vectors::{Dependent, duals};
pub use walks::{Full, Short, walk};
