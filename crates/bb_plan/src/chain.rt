//! The chain of all cells, each with the register that holds it.

ghost use Rattle.std.specs.Prelude.{◌≡◌, ◌<◌, ◌^◌, ◌++◌, length, IfOk, OnOk};
ghost use Rattle.bb_plan.specs.Chain.{links_in, links_from};

use bb_terms::{Cell, Register};
use std::alloc::{AllocError, Global};

/// A cell of the chain, and the number of its register.
#[derive(Clone, Copy, Debug, PartialEq, Eq)]
pub(crate) struct Link {
    pub(crate) cell: Cell,
    pub(crate) register: u32,
}

/// Adds the cells of one register.
fn add_cells(links: &mut Vec<Link>, cells: &[Cell], register: u32) -> Result<(), AllocError>
    ensures { OnOk result (links.new.items ≡ links.old.items ++ links_in register cells.now) }
{
    'cells: for cell in cells {
        links.push(Link {
            cell: *cell,
            register,
        })?;
    }
    Ok(())
}

/// All cells, register after register.
pub(crate) fn chain_of(alloc: Global, registers: &[Register]) -> Result<Vec<Link>, AllocError>
    requires few { length registers.now < 2 ^ 32 }
    ensures { IfOk result (λ links. links.items ≡ links_from 0 registers.now) }
{
    let mut links = Vec::new(alloc);
    'registers: for (number, register) in registers.iter().enumerate() {
        add_cells(&mut links, &register.cells, number as u32)?;
    }
    Ok(links)
}
