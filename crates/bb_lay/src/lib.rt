//! What stands before the first gate of the written netlist: its variables and nets in a builder, and its rows.
//!
//! - `lay_written` declares the original's ports, a clock where there is none, the ports of the test, the original's wires and the added
//!   ones, and makes their nets in this order, by variables and from left to right. It answers where each net of the original went.
//! - No name is declared twice and there is room for every net, so a builder refuses nothing: only memory can be wanted.
//! - `rows_of` gives all rows, over symbols: the original's gates behind the cells, the controller and the registers, the cells, and the
//!   flip-flops. `wires_of` gives the wires that they add, and `add_flops` adds the flip-flops over numbers of nets.
//! - The written netlist's variables can stand together.
//!
//! Not here: the gates of the rows, and the finished netlist. `specs/Laying.antt` says what is laid, `specs/RowsOf.antt` what the rows
//! are; the written netlist itself stands in `bb_written`.
#![tactic(auto)]

mod added;
mod cells;
mod declare;
mod fill;
mod flops;
mod laid;
mod laws;
mod lay;
mod reads;
mod row;
mod rows;
mod variables;

pub use fill::add_flops;
pub use flops::FlopRow;
pub use laid::{Laid, lay_written};
pub use laws::written_variables_stand;
pub use rows::{Rows, rows_of, wires_of};
