//! The controller and the test registers of the written netlist: their table of gates over symbols, made and added.
//!
//! - Each symbol but the original's nets has a name of its own, and no two have one.
//! - `control_rows` gives the table of a plan: the controller's gates, and then each register's.
//! - `lines` adds the table's gates to a builder that has their nets, and answers the nets on which cells and flip-flops stand.
//! - `net_of` and `add_rows` do the same for one symbol and for any rows.
//!
//! `bb_terms` has the symbols' names (`specs/Wires.antt`), the table (`specs/Controller.antt`, `specs/Registers.antt`) and which net
//! stands for a symbol (`specs/Numbering.antt`); here `specs/ControlNets.antt` says what `lines` answers.
#![tactic(auto)]

mod cells;
mod controller;
mod laws;
mod nets;
mod numbering;
mod registers;
mod row;
mod turns;

pub use laws::{valid_has_numbers, wires_differ};
pub use nets::{ControlNets, lines};
pub use numbering::{add_rows, name_of, net_of};
pub use registers::control_rows;
pub use row::Row;
