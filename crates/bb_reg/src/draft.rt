use arrayvec::ArrayVec;
use bb_base::NetId;
use bb_terms::{Cell, Register};
use std::marker::Model;

/// The cells of a netlist before they are in registers: sources, and observers with the leaves of the line of each. Columns are 0.
#[derive(Drop)]
pub struct Draft {
    pub sources: Vec<Cell>,
    pub observers: Vec<Cell>,
    pub leaves: Vec<ArrayVec<NetId, 16>>,
}

impl Model for Draft {
    ghost use Rattle.std.specs.Prelude.{map};
    ghost use Rattle.bb_reg.specs.Draft.{DraftValue};

    ghost Value = { DraftValue };

    ghost view = { λ d. record { sources = d.sources.items; observers = d.observers.items; leaves = map (λ l. l.items) d.leaves.items } };
}

/// Registers, and the leaves of the line of each cell in the order of the scan chain, of which Input and Split cells have none.
/// Masks and columns are 0.
#[derive(Drop)]
pub struct Grouped {
    pub registers: Vec<Register>,
    pub leaves: Vec<ArrayVec<NetId, 16>>,
}

impl Model for Grouped {
    ghost use Rattle.std.specs.Prelude.{map};
    ghost use Rattle.bb_reg.specs.Chosen.{GroupedValue};

    ghost Value = { GroupedValue };

    ghost view = { λ g. record { registers = g.registers.items; leaves = map (λ l. l.items) g.leaves.items } };
}
