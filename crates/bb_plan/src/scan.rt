ghost use Rattle.std.specs.Prelude.{◌≡◌, IfOk};
ghost use Rattle.bb_terms.specs.Plan.{chain};

use bb_terms::{Cell, Plan};
use std::alloc::{AllocError, Global};

/// The scan chain: all cells, register after register.
pub fn chain(alloc: Global, plan: &Plan) -> Result<Vec<Cell>, AllocError>
    ensures { IfOk result (λ cells. cells.items ≡ chain plan.now) }
{
    let mut cells = Vec::new(alloc);
    'registers: for register in &plan.registers {
        cells.extend_from_slice(&register.cells)?;
    }
    Ok(cells)
}
