ghost use Rattle.std.specs.Prelude.{◌≡◌, ◌^◌, ◌-◌, length, min};
ghost use Rattle.bb_terms.specs.Plan.{has_input, chain};

use crate::Kind;
use bb_base::NetId;
use std::marker::Model;

/// A bit of a test register, at a net. The column is the code of a source, and 0 in a cell that is none.
#[derive(Clone, Copy, Debug, PartialEq, Eq)]
pub struct Cell {
    pub kind: Kind,
    pub net: NetId,
    pub column: u32,
}

/// A test register: the feedback mask of its signature, and its cells in order.
#[derive(Drop)]
pub struct Register {
    pub mask: u32,
    pub cells: Vec<Cell>,
}

impl Model for Register {
    ghost use Rattle.bb_terms.specs.Plan.{RegisterValue};

    ghost Value = { RegisterValue };

    ghost view = { λ g. record { mask = g.mask; cells = g.cells.items } };
}

impl Register {
    /// Whether the register has an Input or Split cell, so that it compacts in no session.
    pub fn has_input(&self) -> bool
        ensures { result ≡ has_input self.now }
    {
        self.cells.iter().any(|cell| cell.kind.only_generates())
    }
}

/// A session: the numbers of the registers that compact in it. All others generate.
#[derive(Drop)]
pub struct Session {
    pub compact: Vec<u32>,
}

impl Model for Session {
    ghost use Rattle.std.specs.Prelude.{ℕ, List};

    ghost Value = { List ℕ };

    ghost view = { λ s. s.compact.items };
}

/// A test plan: the most leaves of a line, the degree and the mask of the complete register (an LFSR with zero insertion), the registers and the sessions.
#[derive(Drop)]
pub struct Plan {
    pub width: u32,
    pub degree: u32,
    pub mask: u32,
    pub registers: Vec<Register>,
    pub sessions: Vec<Session>,
}

impl Model for Plan {
    ghost use Rattle.bb_terms.specs.Plan.{PlanValue};

    ghost Value = { PlanValue };

    ghost view = { λ p. record { width = p.width; degree = p.degree; mask = p.mask; registers = p.registers.items; sessions = p.sessions.items } };
}

impl Plan {
    /// How many cells the chain has; `u64::MAX` stands for more.
    pub fn cells(&self) -> u64
        ensures { result ≡ min (2 ^ 64 - 1) (length (chain self.now)) }
    {
        let mut count: u64 = 0;
        'registers: for register in &self.registers {
            count = count.saturating_add(register.cells.len() as u64);
        }
        count
    }
}
