//! The gates and flip-flops of the written netlist, once its nets are laid.

ghost use Rattle.std.specs.Prelude.{◌≡◌, ◌<◌, ◌+◌, ◌-◌, ◌^◌, ◌++◌, IfOk, OnOk, All, length, map};
ghost use Rattle.std.specs.List.{AllByRecursion};
ghost use Rattle.bb_base.specs.Net.{renamed_flop};
ghost use Rattle.bb_base.specs.Building.{with_flops};
ghost use Rattle.bb_terms.specs.Numbering.{net_at, HasDistinctNets};
ghost use Rattle.bb_lay.specs.Tables.{read_in_table, row_behind};
ghost use Rattle.bb_lay.specs.Laying.{HasBothWires};

use crate::flops::FlopRow;
use crate::row::push_row;
use bb_base::{Gate, NetId};
use bb_ctl::{Row, net_of};
use bb_net::Builder;
use bb_terms::Wire;
use std::alloc::{AllocError, Global};

/// What is read of these nets.
fn wires_of(alloc: Global, reads: &[Wire], nets: &[NetId]) -> Result<Vec<Wire>, AllocError>
    requires { All (λ net. net < length reads.now) nets.now }
    ensures { IfOk result (λ wires. wires.items ≡ map (read_in_table reads.now) nets.now) }
{
    let mut wires = Vec::new(alloc);
    'nets: for net in nets {
        wires.push(reads[net.0 as usize])?;
    }
    Ok(wires)
}

/// The rows of the original's gates, which read behind the cells.
pub(crate) fn kept_rows(
    alloc: Global,
    reads: &[Wire],
    gates: &[Gate],
) -> Result<Vec<Row>, AllocError>
    requires { All (λ g. All (λ net. net < length reads.now) g.ins) gates.now }
    ensures { IfOk result (λ rows. rows.items ≡ map (row_behind reads.now) gates.now) }
{
    let mut rows = Vec::new(alloc);
    'gates: for gate in gates {
        let wires = wires_of(alloc, reads, gate.ins.as_slice())?;
        push_row(alloc, &mut rows, gate.op, Wire::Kept(gate.out.0), &wires)?;
    }
    Ok(rows)
}

/// AddsAll the flip-flops of these rows.
///
/// After an error some of them may stand.
pub fn add_flops(
    alloc: Global,
    builder: &mut Builder,
    kept: &[NetId],
    rows: &[FlopRow],
) -> Result<(), AllocError>
    requires distinct { HasDistinctNets builder.old }
    requires stands { AllByRecursion (HasBothWires builder.old kept.now) rows.now }
    requires few { length builder.old.netlist.flops + length rows.now < 2 ^ 32 }
    ensures { OnOk result (builder.new ≡ with_flops builder.old (map (renamed_flop (net_at builder.old kept.now)) rows.now)) }
{
    'rows: for row in rows {
        let q = net_of(alloc, builder, kept, row.q)?;
        let d = net_of(alloc, builder, kept, row.d)?;
        builder.flop(q, d)?;
    }
    Ok(())
}
