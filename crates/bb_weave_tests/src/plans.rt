// Plans that are given by hand: nets are numbered in the order in which a text declares them.

use bb_base::NetId;
use bb_terms::{Cell, Kind, Plan, Register, Session};
use std::alloc::{AllocError, Global};

/// A cell's kind, net and column.
pub(crate) type Row = (Kind, u32, u32);

/// A register of one or two cells, with their least full mask.
fn register(alloc: Global, rows: &[Row]) -> Result<Register, AllocError> {
    let mut cells = Vec::new(alloc);
    for (kind, net, column) in rows {
        cells.push(Cell {
            kind: *kind,
            net: NetId(*net),
            column: *column,
        })?;
    }
    let mask = if rows.len() == 1 { 1 } else { 3 };
    Ok(Register { mask, cells })
}

/// A plan of degree 1, 2 or 3, with its least full mask, for lines of at most two leaves.
pub(crate) fn plan(
    alloc: Global,
    degree: u32,
    rows: &[&[Row]],
    compact: &[&[u32]],
) -> Result<Plan, AllocError> {
    let mut registers = Vec::new(alloc);
    for cells in rows {
        registers.push(register(alloc, cells)?)?;
    }
    let mut sessions = Vec::new(alloc);
    for numbers in compact {
        sessions.push(Session {
            compact: Vec::from_slice(alloc, numbers)?,
        })?;
    }
    let mask = match degree {
        1 => 1,
        2 => 3,
        _ => 5,
    };
    Ok(Plan {
        width: 2,
        degree,
        mask,
        registers,
        sessions,
    })
}
