//! Registers with their columns and masks.

ghost use Rattle.std.specs.Prelude.{◌≡◌, ◌<◌, ◌≤◌, ◌++◌, length, map, slice_index, IfOk, OnOk};
ghost use Rattle.std.specs.List.{AllByRecursion};
ghost use Rattle.bb_choose.specs.Coding.{HasColumn, coded_cell, coded_register};

use bb_terms::{Cell, Register};
use std::alloc::{AllocError, Global};

/// The column of the source on a cell's net, 0 where the cell is none.
fn column_of(numbers: &[u32], columns: &[u32], cell: Cell) -> u32
    requires { HasColumn numbers.now columns.now cell }
    ensures { result ≡ (coded_cell numbers.now columns.now cell).column }
{
    if cell.kind.is_source() {
        columns[numbers[cell.net.0 as usize] as usize]
    } else {
        0
    }
}

/// Cells with their columns.
fn coded_cells(
    alloc: Global,
    numbers: &[u32],
    columns: &[u32],
    cells: &[Cell],
) -> Result<Vec<Cell>, AllocError>
    requires { AllByRecursion (HasColumn numbers.now columns.now) cells.now }
    ensures { IfOk result (λ coded. coded.items ≡ map (coded_cell numbers.now columns.now) cells.now) }
{
    let mut coded = Vec::new(alloc);
    'cells: for cell in cells {
        coded.push(Cell {
            kind: cell.kind,
            net: cell.net,
            column: column_of(numbers, columns, *cell),
        })?;
    }
    Ok(coded)
}

/// Registers with their cells' columns and their lengths' masks.
pub(crate) fn coded_registers(
    alloc: Global,
    numbers: &[u32],
    columns: &[u32],
    masks: &[u32],
    registers: &[Register],
) -> Result<Vec<Register>, AllocError>
    requires columns { AllByRecursion (λ g. AllByRecursion (HasColumn numbers.now columns.now) g.cells) registers.now }
    requires masks { AllByRecursion (λ g. length g.cells < length masks.now) registers.now }
    ensures { IfOk result (λ coded. coded.items ≡ map (coded_register numbers.now columns.now masks.now) registers.now) }
{
    let mut coded = Vec::new(alloc);
    'registers: for register in registers {
        let cells = coded_cells(alloc, numbers, columns, &register.cells)?;
        coded.push(Register {
            mask: masks[register.cells.len()],
            cells,
        })?;
    }
    Ok(coded)
}
