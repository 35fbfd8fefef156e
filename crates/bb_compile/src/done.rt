//! The line of a call that is done.

ghost use Rattle.std.specs.Prelude.{◌≡◌, ◌++◌, IfOk, OnOk, codes, decimal};
ghost use Rattle.bb_compile.specs.Outputs.{done_line};

use bb_make::Summary;
use bb_read::put_counted;
use std::alloc::{AllocError, Global};

/// Appends the counts of a plan.
fn put_plan(alloc: Global, line: &mut Vec<u8>, summary: Summary) -> Result<(), AllocError>
    ensures { OnOk result (line.new.items ≡ line.old.items ++ (codes " registers " ++ (decimal summary.registers
        ++ (codes " sessions " ++ (decimal summary.sessions ++ (codes " degree " ++ (decimal summary.degree ++ (codes " cycles " ++ decimal summary.cycles)))))))) }
{
    put_counted(alloc, line, b" registers ", u64::from(summary.registers))?;
    put_counted(alloc, line, b" sessions ", u64::from(summary.sessions))?;
    put_counted(alloc, line, b" degree ", u64::from(summary.degree))?;
    put_counted(alloc, line, b" cycles ", summary.cycles)
}

/// Appends the counts of a netlist and of the cells of its plan.
fn put_netlist(alloc: Global, line: &mut Vec<u8>, summary: Summary) -> Result<(), AllocError>
    ensures { OnOk result (line.new.items ≡ line.old.items ++ (codes "done gates " ++ (decimal summary.gates ++ (codes " flops " ++ (decimal summary.flops
        ++ (codes " cells " ++ decimal summary.cells)))))) }
{
    put_counted(alloc, line, b"done gates ", u64::from(summary.gates))?;
    put_counted(alloc, line, b" flops ", u64::from(summary.flops))?;
    put_counted(alloc, line, b" cells ", u64::from(summary.cells))
}

/// The line of a call that is done.
pub(crate) fn done_line_of(alloc: Global, summary: Summary) -> Result<Vec<u8>, AllocError>
    ensures { IfOk result (λ line. line.items ≡ done_line summary) }
{
    let mut line = Vec::new(alloc);
    put_netlist(alloc, &mut line, summary)?;
    put_plan(alloc, &mut line, summary)?;
    line.extend_from_slice(b"\n")?;
    Ok(line)
}
