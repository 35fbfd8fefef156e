//! Names of a module: what its declarations say of them, which variable each use of a name is, and which bits a reference names. With them,
//! what the widths of a module's values are and what gates its items make.
//!
//! - `declared` answers what is said of each name, and the first declaration that clashes with one before it.
//! - A `Scope` has the place of each variable's bits, and answers the bits of a reference.
//! - `kind_of` answers the row of the table of cells.
//!
//! `specs/Names.antt`, `specs/Declarations.antt` and `specs/Variables.antt` say what a module's names, declarations and variables
//! are, `specs/References.antt` which bits a reference names, `specs/Cells.antt` what the cells are, and `specs/Answers.antt` what a
//! call that looks for a fault may answer. `specs/Text.antt` says what fault a text has before any gate is made, `specs/Parts.antt` and
//! `specs/Sizes.antt` what the faults and nets of items and expressions are, and `specs/Making.antt` what gates items make; the code for
//! these stands in the crates above.
#![tactic(auto)]

mod cells;
mod references;
mod said;
mod scope;
mod size;
mod uses;
mod value;

pub use cells::{Body, Kind, kind_of, unknown_cell};
pub use references::{Span, WIDTH_LIMIT, bits_of, span_fault};
pub use said::{Said, declared};
pub use scope::{Bits, Scope};
pub use size::Size;
pub use uses::{behind, behind_item, behind_pin, behind_step, behind_steps, behind_terms};
pub use value::Bit;
