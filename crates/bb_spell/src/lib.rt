//! How a named netlist is written: names, bits, lines, and its canonical text of one statement a line. And how lines are read: the readers
//! that texts of lines share, what a line of a canonical text says, and which line may stand where.
//!
//! - `append_text` appends the canonical text of a netlist, or leaves the bytes as they were.
//! - `stands_plain` answers exactly whether a name is written as it is; any other is an escaped identifier.
//! - A reader answers what stands at the front of bytes and what follows it, or that nothing of its kind stands there; a reader of lines
//!   answers what a line of its kind says, or that it is none.
//! - `next_line` answers the first line of a text, where a line feed ends it.
//! - `bad_line` answers the first line that may not stand in its place, by its form and the lines before it, or that is missing. A text
//!   has one such line, or all its lines are right. Whether names and bits fit isn't asked here.
//!
//! `specs/Spelling.antt` says how names, bits and statements are written, `specs/Canonical.antt` what the text is, `specs/Front.antt` what
//! is read from the front of bytes, and `specs/TextLines.antt` what the lines of a text are and which of them is the first bad one.
//! `specs/Lines.antt` says how a line is read, `specs/Places.antt` which line may stand where by reading it, and `specs/Forms.antt` the same
//! by what the lines spell.
#![tactic(auto)]

mod line;
mod line_laws;
mod lines;
mod places;
mod scan;
mod spell;
mod statement;
mod text;

pub use line_laws::{lines_stand_by_their_forms, one_bad_line};
pub use lines::next_line;
pub use places::{Stage, bad_line};
pub use scan::{
    BitText, LineFault, after, begins_with, read_bit, read_name, read_number, read_range,
    read_small, word_at,
};
pub use spell::{stands_plain, write_bit, write_name, write_net, write_number};
pub use statement::{
    Instance, Statement, read_declaration, read_flop, read_module, read_statement, word_role,
};
pub use text::append_text;
