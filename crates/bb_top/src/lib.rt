//! The program: what its words mean is done, a line is put, and a status is answered.
//!
//! - Where `compile` is done, the input's text denotes a netlist, and the four files hold what is made of it: a text that denotes the netlist
//!   with its self-test, the schedule of the plan that was chosen, its signatures and its certificate. `sample` does the same of the sample
//!   of its number, whose own text stands in a fifth file.
//! - Where `check` is done, the netlist of the files is a self-test of the input's, with the signatures that they list, whoever made them.
//! - A refusal is the first that the texts have, and no answer is done where there is one.
//! - Each other answer comes by its own cause, and only a write that failed leaves a file changed: those before it are whole.
//!
//! All is made before the first byte is written, and no memory is taken from then on; no contract says so.
//!
//! `specs/Ends.antt` says how a call may end, and `specs/Needs.antt` what a command needs. What is made stands in `bb_compile`, what passes
//! in `bb_check`, how refusals are put in `bb_read`, and what words mean in `bb_words`. `specs/Steps.antt` serves proofs, and no public
//! contract cites it.
#![tactic(auto)]

mod commands;
mod ends;
mod laws;
mod top;

pub use laws::compiled_files_pass;
pub use top::bilbo;
