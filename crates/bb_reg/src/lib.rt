//! Cells, registers and sessions: the part of a test plan that is chosen once the cuts are.
//!
//! - `cells` answers the cells that a netlist with its cuts needs: sources, and observers with the leaves of the line of each.
//! - `group` puts them into test registers: the sources in runs, and each observer into the first register of observers that has room
//!   and no cell that clashes with it, else into a new one.
//! - `sessions` puts each register of observers into the first session that has no register in conflict with it, else into a new one.
//!
//! Each cell of a draft stands once in the chain, each register of observers in one session; no cells of a register clash, and no
//! registers of a session are in conflict. Not promised: the fewest registers or sessions.
//!
//! `specs/Draft.antt` says which cells a netlist needs, and `specs/Chosen.antt` what registers and sessions they are in.
#![tactic(auto)]

mod draft;
mod drafting;
mod ends;
mod fit;
mod index;
mod laws;
mod lines;
mod registers;
mod scheduling;

pub use draft::{Draft, Grouped};
pub use drafting::cells;
pub use laws::{
    cells_fit, cells_stand_once, registers_are_apart, registers_are_pure, sessions_are_apart,
};
pub use registers::group;
pub use scheduling::sessions;
