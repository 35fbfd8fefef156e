//! The columns of source cells, by their nets.

ghost use Rattle.std.specs.Prelude.{◌≡◌, ◌<◌, ◌^◌, ℕ, None, length, All, IfOk};
ghost use Rattle.std.specs.List.{flat_map};
ghost use Rattle.bb_terms.specs.Valid.{IsValidPlan};
ghost use Rattle.bb_sign.specs.Bits.{noted_column, last_column, AreReadColumns};

use bb_base::Netlist;
use bb_terms::{Cell, Plan, Register};
use std::alloc::{AllocError, Global};

/// Notes the columns of a register's source cells at their nets.
fn note_cells(cells: &[Cell], columns: &mut [Option<u32>])
    requires { All (λ c. c.net < length columns.old) cells.now }
    ensures long { length columns.new ≡ length columns.old }
    ensures noted { (net : ℕ) → noted_column columns.new net ≡ last_column cells.now net (noted_column columns.old net) }
{
    'cells: for cell in cells {
        if cell.kind.is_source() {
            columns[cell.net.0 as usize] = Some(cell.column);
        }
    }
}

/// Notes those of all registers.
fn note_registers(registers: &[Register], columns: &mut [Option<u32>])
    requires { All (λ g. All (λ c. c.net < length columns.old) g.cells) registers.now }
    ensures long { length columns.new ≡ length columns.old }
    ensures noted { (net : ℕ) → noted_column columns.new net ≡ last_column (flat_map (λ g. g.cells) registers.now) net (noted_column columns.old net) }
{
    'registers: for register in registers {
        note_cells(&register.cells, columns);
    }
}

/// No columns at so many nets.
fn no_columns(alloc: Global, nets: u32) -> Result<Vec<Option<u32>>, AllocError>
    ensures long { IfOk result (λ columns. length columns.items ≡ nets) }
    ensures none { IfOk result (λ columns. (net : ℕ) → noted_column columns.items net ≡ None) }
{
    Ok(vec![in alloc; None; nets as usize]?)
}

/// For each net the column that gives it its bit, and none where its gate does.
pub(crate) fn columns_of(
    alloc: Global,
    netlist: &Netlist,
    plan: &Plan,
) -> Result<Vec<Option<u32>>, AllocError>
    requires { IsValidPlan netlist.now plan.now }
    ensures columns { IfOk result (λ columns. AreReadColumns netlist.now plan.now columns.items) }
    ensures few { IfOk result (λ columns. length columns.items < 2 ^ 32) }
{
    let mut columns = no_columns(alloc, netlist.nets())?;
    note_registers(&plan.registers, &mut columns);
    Ok(columns)
}
