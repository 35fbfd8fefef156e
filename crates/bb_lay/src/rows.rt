//! All rows of the written netlist, and its added wires.

ghost use Rattle.std.specs.Prelude.{◌≡◌, ◌^◌, ◌<◌, ℕ, IfOk, All, length};
ghost use Rattle.bb_base.specs.Net.{Netlist as NetlistValue, driven};
ghost use Rattle.bb_terms.specs.Plan.{PlanValue, chain};
ghost use Rattle.bb_ctl.specs.Numbers.{HasNumbers};
ghost use Rattle.bb_written.specs.Written.{inner_wires};
ghost use Rattle.bb_lay.specs.Tables.{IsOn};
ghost use Rattle.bb_lay.specs.RowsOf.{AreRows};

use crate::cells::cell_rows;
use crate::fill::kept_rows;
use crate::flops::{FlopRow, flop_rows, push_outs, push_qs};
use crate::reads::{chain_of, tables_of};
use bb_base::Netlist;
use bb_ctl::{Row, control_rows};
use bb_terms::{Plan, Wire};
use std::alloc::{AllocError, Global};

/// The rows of a written netlist: the original's gates behind the cells, the controller with the registers, the cells, and all
/// flip-flops.
#[derive(Drop)]
pub struct Rows {
    pub kept: Vec<Row>,
    pub control: Vec<Row>,
    pub cells: Vec<Row>,
    pub flops: Vec<FlopRow>,
}

/// The rows of a plan's written netlist.
pub fn rows_of(alloc: Global, netlist: &Netlist, plan: &Plan) -> Result<Rows, AllocError>
    requires numbers { HasNumbers plan.now }
    requires within { All (IsOn (length (driven netlist.now))) (chain plan.now) }
    ensures { IfOk result (AreRows netlist.now plan.now) }
{
    let chain = chain_of(alloc, plan)?;
    let tables = tables_of(alloc, netlist, plan, &chain)?;
    let kept = kept_rows(alloc, &tables.reads, netlist.gates())?;
    let control = control_rows(alloc, plan)?;
    let cells = cell_rows(alloc, netlist, plan, &tables)?;
    let flops = flop_rows(alloc, plan, &chain)?;
    Ok(Rows {
        kept,
        control,
        cells,
        flops,
    })
}

/// The added wires that rows drive.
pub fn wires_of(alloc: Global, rows: &Rows) -> Result<Vec<Wire>, AllocError>
    ensures { IfOk result (λ wires. (a : NetlistValue ℕ) (p : PlanValue) → AreRows a p rows.now → wires.items ≡ inner_wires a p) }
{
    let mut wires = Vec::new(alloc);
    push_outs(&mut wires, &rows.control)?;
    push_outs(&mut wires, &rows.cells)?;
    push_qs(&mut wires, &rows.flops)?;
    Ok(wires)
}
