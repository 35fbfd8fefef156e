//! Registers: sources in runs, and observers by first fit.

ghost use Rattle.std.specs.Prelude.{◌≡◌, ◌+◌, ◌<◌, ◌≤◌, ◌^◌, ◌++◌, [], length, map, IfOk, OnOk};
ghost use Rattle.std.specs.List.{AllByRecursion, flat_map};
ghost use Rattle.bb_reg.specs.Chosen.{grouped_of, in_runs, register_of, seen_cells};
ghost use Rattle.bb_reg.specs.Fitting.{cell_at, ends_each, groups_of, leaves_at};

use crate::ends::{Ends, ends_one};
use crate::fit::fit;
use crate::index::Numbers;
use crate::{Draft, Grouped};
use arrayvec::ArrayVec;
use bb_base::NetId;
use bb_terms::{Cell, Register};
use std::alloc::{AllocError, Global};

/// A register of some cells, without a mask.
fn register_of(alloc: Global, cells: &[Cell]) -> Result<Register, AllocError>
    ensures { IfOk result (λ register. register ≡ register_of cells.now) }
{
    Ok(Register {
        mask: 0,
        cells: Vec::from_slice(alloc, cells)?,
    })
}

/// The sources in registers of so many.
fn runs_of(alloc: Global, sources: &[Cell], most: usize) -> Result<Vec<Register>, AllocError>
    requires { 0 < most }
    ensures { IfOk result (λ registers. registers.items ≡ map register_of (in_runs most sources.now)) }
{
    let mut registers = Vec::new(alloc);
    let mut rest = sources;
    'runs: while !rest.is_empty() {
        let (run, after) = rest.split_at(most.min(rest.len()));
        registers.push(register_of(alloc, run)?)?;
        rest = after;
    }
    Ok(registers)
}

/// No leaves for so many cells.
fn no_leaves(alloc: Global, cells: &[Cell]) -> Result<Vec<ArrayVec<NetId, 16>>, AllocError>
    ensures { IfOk result (λ leaves. map (λ l. l.items) leaves.items ≡ map (λ c. []) cells.now) }
{
    let mut leaves = Vec::new(alloc);
    'cells: for _ in cells {
        leaves.push(ArrayVec::new())?;
    }
    Ok(leaves)
}

/// What each observer gives and reads.
fn each_ends(
    alloc: Global,
    cells: &[Cell],
    leaves: &[ArrayVec<NetId, 16>],
) -> Result<Vec<Ends>, AllocError>
    requires { length cells.now ≡ length leaves.now }
    ensures { IfOk result (λ items. items.items ≡ ends_each (seen_cells cells.now (map (λ l. l.items) leaves.now))) }
{
    let mut items = Vec::new(alloc);
    'cells: for number in 0..cells.len() {
        items.push(ends_one(alloc, cells[number], &leaves[number])?)?;
    }
    Ok(items)
}

/// The cells of these numbers.
fn cells_of(alloc: Global, cells: &[Cell], numbers: &[u32]) -> Result<Vec<Cell>, AllocError>
    requires { AllByRecursion (λ j. j < length cells.now) numbers.now }
    ensures { IfOk result (λ own. own.items ≡ map (cell_at cells.now) numbers.now) }
{
    let mut own = Vec::new(alloc);
    'numbers: for number in numbers {
        own.push(cells[*number as usize])?;
    }
    Ok(own)
}

/// The same leaves.
pub(crate) fn copied(leaves: &ArrayVec<NetId, 16>) -> Result<ArrayVec<NetId, 16>, AllocError>
    ensures { IfOk result (λ copy. copy.items ≡ leaves.now.items) }
{
    leaves.clone()
}

/// Adds the leaves of these numbers.
fn add_leaves(
    leaves: &[ArrayVec<NetId, 16>],
    numbers: &[u32],
    added: &mut Vec<ArrayVec<NetId, 16>>,
) -> Result<(), AllocError>
    requires { AllByRecursion (λ j. j < length leaves.now) numbers.now }
    ensures { OnOk result (map (λ l. l.items) added.new.items ≡ map (λ l. l.items) added.old.items ++ map (leaves_at (map (λ l. l.items) leaves.now)) numbers.now) }
{
    'numbers: for number in numbers {
        added.push(copied(&leaves[*number as usize])?)?;
    }
    Ok(())
}

/// Adds a register for each group of observers.
fn add_registers(
    alloc: Global,
    cells: &[Cell],
    groups: &[Numbers],
    registers: &mut Vec<Register>,
) -> Result<(), AllocError>
    requires { AllByRecursion (AllByRecursion (λ j. j < length cells.now)) groups.now }
    ensures { OnOk result (registers.new.items ≡ registers.old.items ++ map (λ group. register_of (map (cell_at cells.now) group)) groups.now) }
{
    'groups: for group in groups {
        let own = cells_of(alloc, cells, group.as_slice())?;
        registers.push(Register {
            mask: 0,
            cells: own,
        })?;
    }
    Ok(())
}

/// Adds the leaves of each group of observers.
fn add_all_leaves(
    leaves: &[ArrayVec<NetId, 16>],
    groups: &[Numbers],
    added: &mut Vec<ArrayVec<NetId, 16>>,
) -> Result<(), AllocError>
    requires { AllByRecursion (AllByRecursion (λ j. j < length leaves.now)) groups.now }
    ensures { OnOk result (map (λ l. l.items) added.new.items ≡ map (λ l. l.items) added.old.items ++ flat_map (map (leaves_at (map (λ l. l.items) leaves.now))) groups.now) }
{
    'groups: for group in groups {
        add_leaves(leaves, group.as_slice(), added)?;
    }
    Ok(())
}

/// The groups of observers, by their numbers.
fn groups_of(alloc: Global, draft: &Draft, most: u32) -> Result<Vec<Numbers>, AllocError>
    requires most { 0 < most }
    requires leaves { length draft.now.leaves ≡ length draft.now.observers }
    requires few { length draft.now.observers < 2 ^ 32 }
    ensures groups { IfOk result (λ groups. groups.items ≡ groups_of (ends_each (seen_cells draft.now.observers draft.now.leaves)) most (length draft.now.observers)) }
    ensures within { IfOk result (λ groups. AllByRecursion (AllByRecursion (λ j. j < length draft.now.observers)) groups.items) }
{
    let items = each_ends(alloc, &draft.observers, &draft.leaves)?;
    fit(alloc, &items, most)
}

/// The cells of a draft in registers of at most so many: sources in runs, then each observer in the first register of observers that has
/// room and no cell that clashes with it, else in a new one. Each cell of the chain has an entry of `leaves`, and each register a cell.
pub fn group(alloc: Global, draft: &Draft, most: u32) -> Result<Grouped, AllocError>
    requires least { 1 ≤ most }
    requires most { most ≤ 16 }
    requires leaves { length draft.now.leaves ≡ length draft.now.observers }
    requires few { length draft.now.sources + length draft.now.observers < 2 ^ 32 }
    ensures grouped { IfOk result (λ grouped. grouped ≡ grouped_of draft.now most) }
    ensures leaves { IfOk result (λ grouped. length grouped.leaves ≡ length (flat_map (λ g. g.cells) grouped.registers)) }
    ensures few { IfOk result (λ grouped. length grouped.registers ≤ length draft.now.sources + length draft.now.observers) }
{
    let groups = groups_of(alloc, draft, most)?;
    let mut registers = runs_of(alloc, &draft.sources, most as usize)?;
    add_registers(alloc, &draft.observers, &groups, &mut registers)?;
    let mut leaves = no_leaves(alloc, &draft.sources)?;
    add_all_leaves(&draft.leaves, &groups, &mut leaves)?;
    Ok(Grouped { registers, leaves })
}
