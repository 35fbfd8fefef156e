//! What observers give to lines, and what their own lines read.

ghost use Rattle.std.specs.Prelude.{◌≡◌, ◌++◌, ◌∷◌, [], length, map, IfOk, OnOk};
ghost use Rattle.bb_reg.specs.Chosen.{given, given_by, read_nets, seen_cells};
ghost use Rattle.std.specs.List.{flat_map};
ghost use Rattle.bb_reg.specs.Fitting.{ends_of_all};

use arrayvec::ArrayVec;
use bb_base::NetId;
use bb_terms::Cell;
use std::alloc::{AllocError, Global};
use std::marker::Model;

/// The nets that some observers give to lines, and those that their own lines read.
#[derive(Drop)]
pub(crate) struct Ends {
    pub(crate) gives: Vec<u32>,
    pub(crate) reads: Vec<u32>,
}

impl Model for Ends {
    ghost use Rattle.bb_reg.specs.Fitting.{EndsValue};

    ghost Value = { EndsValue };

    ghost view = { λ e. record { gives = e.gives.items; reads = e.reads.items } };
}

/// Adds what one cell gives.
fn add_given(gives: &mut Vec<u32>, cell: Cell) -> Result<(), AllocError>
    ensures { OnOk result (gives.new.items ≡ gives.old.items ++ given_by cell) }
{
    if cell.kind.reads_back() {
        gives.push(cell.net.0)?;
    }
    Ok(())
}

/// What some cells give to lines.
fn given(alloc: Global, cells: &[Cell]) -> Result<Vec<u32>, AllocError>
    ensures { IfOk result (λ gives. gives.items ≡ flat_map given_by cells.now) }
{
    let mut gives = Vec::new(alloc);
    'cells: for cell in cells {
        add_given(&mut gives, *cell)?;
    }
    Ok(gives)
}

/// Adds some nets.
fn add_nets(reads: &mut Vec<u32>, nets: &[NetId]) -> Result<(), AllocError>
    ensures { OnOk result (reads.new.items ≡ reads.old.items ++ nets.now) }
{
    'nets: for net in nets {
        reads.push(net.0)?;
    }
    Ok(())
}

/// All leaves of some lines.
fn read(alloc: Global, leaves: &[ArrayVec<NetId, 16>]) -> Result<Vec<u32>, AllocError>
    ensures { IfOk result (λ reads. reads.items ≡ flat_map (λ l. l.items) leaves.now) }
{
    let mut reads = Vec::new(alloc);
    'lines: for nets in leaves {
        add_nets(&mut reads, nets)?;
    }
    Ok(reads)
}

/// What some observers give and read, by their cells and the leaves of their lines.
pub(crate) fn ends_of(
    alloc: Global,
    cells: &[Cell],
    leaves: &[ArrayVec<NetId, 16>],
) -> Result<Ends, AllocError>
    requires { length cells.now ≡ length leaves.now }
    ensures gives { IfOk result (λ ends. ends.gives ≡ given (seen_cells cells.now (map (λ l. l.items) leaves.now))) }
    ensures reads { IfOk result (λ ends. ends.reads ≡ read_nets (seen_cells cells.now (map (λ l. l.items) leaves.now))) }
{
    let gives = given(alloc, cells)?;
    let reads = read(alloc, leaves)?;
    Ok(Ends { gives, reads })
}

/// What one observer gives and reads.
pub(crate) fn ends_one(alloc: Global, cell: Cell, leaves: &[NetId]) -> Result<Ends, AllocError>
    ensures { IfOk result (λ ends. ends ≡ ends_of_all (record { cell = cell; leaves = leaves.now } ∷ [])) }
{
    let mut gives = Vec::new(alloc);
    add_given(&mut gives, cell)?;
    let mut reads = Vec::new(alloc);
    add_nets(&mut reads, leaves)?;
    Ok(Ends { gives, reads })
}
