//! The bits of cells.

ghost use Rattle.std.specs.Prelude.{◌≡◌, ◌++◌, ◌+◌, ◌<◌, ◌^◌, OnOk, IfOk, length, map, Some};
ghost use Rattle.bb_terms.specs.OnBits.{last_of};
ghost use Rattle.bb_terms.specs.Plan.{chain};
ghost use Rattle.bb_terms.specs.Reads.{q_of, qs_from};

use bb_terms::{Cell, Kind, Plan, Wire};
use std::alloc::{AllocError, Global};

/// The bit of the cell of this number.
fn q_of(i: u32, cell: Cell) -> Wire
    ensures { result ≡ q_of i cell }
{
    match cell.kind {
        Kind::State | Kind::Split => Wire::Kept(cell.net.0),
        Kind::Input | Kind::Cut | Kind::Watch | Kind::Output => Wire::Held(i),
    }
}

/// Adds the bits of these cells, whose numbers go on from those that stand.
fn push_qs(qs: &mut Vec<Wire>, cells: &[Cell]) -> Result<(), AllocError>
    requires { length qs.old.items + length cells.now < 2 ^ 32 }
    ensures { OnOk result (qs.new.items ≡ qs.old.items ++ qs_from (length qs.old.items) cells.now) }
{
    'cells: for cell in cells {
        qs.push(q_of(qs.len() as u32, *cell))?;
    }
    Ok(())
}

/// The bits of all cells of the chain.
pub(crate) fn chain_qs(alloc: Global, plan: &Plan) -> Result<Vec<Wire>, AllocError>
    requires { length (chain plan.now) < 2 ^ 32 }
    ensures { IfOk result (λ qs. qs.items ≡ qs_from 0 (chain plan.now)) }
{
    let mut qs = Vec::new(alloc);
    'registers: for register in &plan.registers {
        push_qs(&mut qs, &register.cells)?;
    }
    Ok(qs)
}

/// The last of these wires, and the one before them where there is none.
pub(crate) fn last_or(wires: &[Wire], before: Option<Wire>) -> Option<Wire>
    ensures { result ≡ last_of before (map Some wires.now) }
{
    let mut last = before;
    'wires: for wire in wires {
        last = Some(*wire);
    }
    last
}
