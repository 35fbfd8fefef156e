//! What stands before the first gate: the builder with all variables and nets, and the rows to come.

ghost use Rattle.std.specs.Prelude.{◌≡◌, ◌≤◌, IfOk};
ghost use Rattle.bb_base.specs.Variables.{bit_count, ports_of};
ghost use Rattle.bb_base.specs.Named.{IsByBits};
ghost use Rattle.bb_base.specs.Building.{started};
ghost use Rattle.bb_terms.specs.Valid.{IsValidFor};
ghost use Rattle.bb_written.specs.Written.{written_variables, inner_wires};
ghost use Rattle.bb_ctl.specs.OwnNames.{HasOwnNames};
ghost use Rattle.bb_lay.specs.RowsOf.{AreRows};
ghost use Rattle.bb_lay.specs.Laying.{AddsAll, IsLaid, AreKept, laid_bits, clock_or};

use crate::rows::{Rows, rows_of, wires_of};
use crate::variables::lay;
use bb_base::NetId;
use bb_net::{Builder, Named};
use bb_terms::Valid;
use std::alloc::{AllocError, Global};

/// A builder with all variables and nets of a written netlist, where each net of the original went, and the rows that are left to add.
#[derive(Drop)]
pub struct Laid {
    pub builder: Builder,
    pub kept: Vec<NetId>,
    pub rows: Rows,
}

/// Lays the variables and nets of the written netlist of a valid plan.
pub fn lay_written(alloc: Global, named: &Named, valid: &Valid) -> Result<Laid, AllocError>
    requires valid { IsValidFor named.now.netlist valid.now }
    requires own { HasOwnNames named.now }
    requires few { bit_count named.now.variables ≤ 2097152 }
    ensures adds { IfOk result (λ laid. AddsAll (started named.now.module_name) laid.builder (written_variables named.now valid.now.plan) (laid_bits named.now (inner_wires named.now.netlist valid.now.plan)) (clock_or named.now.clock (ports_of named.now.variables))) }
    ensures variables { IfOk result (λ laid. laid.builder.variables ≡ written_variables named.now valid.now.plan) }
    ensures bits { IfOk result (λ laid. bit_count laid.builder.variables ≤ 134217728) }
    ensures by_bits { IfOk result (λ laid. IsByBits laid.builder) }
    ensures laid { IfOk result (λ laid. IsLaid laid.builder) }
    ensures kept { IfOk result (λ laid. AreKept named.now laid.builder laid.kept.items) }
    ensures rows { IfOk result (λ laid. AreRows named.now.netlist valid.now.plan laid.rows) }
{
    let rows = rows_of(alloc, named.netlist(), valid.plan())?;
    let wires = wires_of(alloc, &rows)?;
    let mut builder = Builder::new(alloc, named.module().copy(alloc)?)?;
    let kept = lay(alloc, &mut builder, named, &wires)?;
    Ok(Laid {
        builder,
        kept,
        rows,
    })
}
