//! What the program reads, writes and says: files, the named netlist that the text of a file denotes, and the lines of refusals.
//!
//! - `read_named` answers the netlist that a file's text denotes, with an order of its gates, or why the text denotes none: it is longer
//!   than the limit, or else its first flaw, or else its module's first fault.
//! - Each text comes to one of these ends, and to no other (`one_end_of`), and what it denotes is a named netlist
//!   (`read_netlists_are_named`).
//! - Where a text may use no name of this project's own, a self-test can be woven into the netlist that it denotes
//!   (`read_netlists_are_ready`): it has no loop, those of its names that begin with `bt_` are names of made wires, and it has at most
//!   2,097,152 bits, made wires among them.
//! - A file that is read (`read_whole`) gives all its bytes, or says that it has more than the limit or that the store failed. A text
//!   (`module_in`) gives its module, or the first thing in it that breaks the rules of tokens or of the grammar.
//! - A file that is written (`write_whole`) holds the text, and where a write fails a front of it or what it held. Files that are written
//!   one after another (`write_files`) are whole up to the first that fails, and those behind it are untouched.
//! - `line_of` answers the line of a refusal: its kind, and then its words, which name the line of the text, the net by the text's own
//!   name, the number that is over a limit, or the rule that a self-test's files don't meet. Which text, netlist or files have one, the
//!   crates that judge them say.
//!
//! `specs/Texts.antt` says what a text comes to, `specs/Ready.antt` what is ready, `specs/Files.antt` what names hold after files were
//! written, and `specs/Lines.antt` how refusals are put; `bb_meaning` says what a text denotes. `specs/TextReading.antt` serves proofs, and no
//! public contract cites it.
#![tactic(auto)]

mod fault;
mod files;
mod form_words;
mod laws;
mod line;
mod named;
mod named_fault;
mod plan_words;
mod read;
mod ready;
mod refusal;
mod spelled;
mod stop;
mod text;
mod text_words;
mod write;

pub use fault::ReadFault;
pub use files::{File, write_files};
pub use laws::{one_end_of, one_outcome_of, read_netlists_are_named};
pub use line::line_of;
pub use named::{FILE_LIMIT, read_named};
pub use named_fault::NamedFault;
pub use read::read_whole;
pub use ready::read_netlists_are_ready;
pub use refusal::{FormRefusal, PlanRefusal, Refusal, TextRefusal};
pub use spelled::put_counted;
pub use stop::Stop;
pub use text::module_in;
pub use write::write_whole;
