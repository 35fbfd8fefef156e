//! The words of netlists for which there is no plan.

ghost use Rattle.std.specs.Prelude.{◌≡◌, ◌++◌, OnOk, decimal, codes};
ghost use Rattle.bb_read.specs.Lines.{said, plan_words};

use crate::refusal::PlanRefusal;
use crate::spelled::{put_counted, put_said};
use bb_base::Name;
use std::alloc::{AllocError, Global};

/// Appends how many inputs a gate has, and the width.
fn put_inputs(alloc: Global, line: &mut Vec<u8>, inputs: u64, width: u64) -> Result<(), AllocError>
    ensures { OnOk result (line.new.items ≡ line.old.items ++ (codes " has " ++ (decimal inputs ++ (codes " inputs over " ++ decimal width)))) }
{
    put_counted(alloc, line, b" has ", inputs)?;
    put_counted(alloc, line, b" inputs over ", width)?;
    Ok(())
}

/// Appends the words of a gate that is too wide.
fn put_gate(
    alloc: Global,
    line: &mut Vec<u8>,
    name: &Name,
    select: Option<u32>,
    inputs: u32,
    width: u32,
) -> Result<(), AllocError>
    ensures { OnOk result (line.new.items ≡ line.old.items ++ (codes "gate " ++ (said name.now select ++ (codes " has " ++ (decimal inputs ++ (codes " inputs over " ++ decimal width)))))) }
{
    put_said(alloc, line, b"gate ", name, select)?;
    put_inputs(alloc, line, u64::from(inputs), u64::from(width))
}

/// Appends the words of a degree that has too few states for the cells.
fn put_cells(alloc: Global, line: &mut Vec<u8>, max: u32, cells: u32) -> Result<(), AllocError>
    ensures { OnOk result (line.new.items ≡ line.old.items ++ (codes "degree limit " ++ (decimal max ++ (codes " for " ++ (decimal cells ++ codes " cells"))))) }
{
    put_counted(alloc, line, b"degree limit ", u64::from(max))?;
    put_counted(alloc, line, b" for ", u64::from(cells))?;
    line.extend_from_slice(b" cells")
}

/// Appends the words of a source that has no column.
fn put_source(
    alloc: Global,
    line: &mut Vec<u8>,
    max: u32,
    name: &Name,
    select: Option<u32>,
) -> Result<(), AllocError>
    ensures { OnOk result (line.new.items ≡ line.old.items ++ (codes "degree limit " ++ (decimal max ++ (codes " at source " ++ said name.now select)))) }
{
    put_counted(alloc, line, b"degree limit ", u64::from(max))?;
    put_said(alloc, line, b" at source ", name, select)
}

/// Appends the words of too many cycles.
fn put_cycles(alloc: Global, line: &mut Vec<u8>, limit: u64, needed: u64) -> Result<(), AllocError>
    ensures { OnOk result (line.new.items ≡ line.old.items ++ (codes "cycle limit " ++ (decimal limit ++ (codes ", needed " ++ decimal needed)))) }
{
    put_counted(alloc, line, b"cycle limit ", limit)?;
    put_counted(alloc, line, b", needed ", needed)
}

/// Appends the words of a netlist for which there is no plan.
pub(crate) fn put_plan_words(
    alloc: Global,
    line: &mut Vec<u8>,
    refusal: &PlanRefusal,
) -> Result<(), AllocError>
    ensures { OnOk result (line.new.items ≡ line.old.items ++ plan_words refusal.now) }
{
    match refusal {
        PlanRefusal::GateTooWide {
            name,
            select,
            inputs,
            width,
        } => put_gate(alloc, line, name, *select, *inputs, *width),
        PlanRefusal::TooFewStates { max, cells } => put_cells(alloc, line, *max, *cells),
        PlanRefusal::NoColumn { max, name, select } => {
            put_source(alloc, line, *max, name, *select)
        }
        PlanRefusal::TooManyCycles { limit, needed } => put_cycles(alloc, line, *limit, *needed),
        PlanRefusal::NoFullPeriod { degree } => put_counted(
            alloc,
            line,
            b"no full period at degree ",
            u64::from(*degree),
        ),
    }
}
