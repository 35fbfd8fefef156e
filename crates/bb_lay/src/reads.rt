//! What is read of each net of the original, and the d of each flip-flop, as tables by net.

ghost use Rattle.std.specs.Prelude.{◌≡◌, ◌<◌, ◌^◌, ◌++◌, ℕ, IfOk, OnOk, Some, All, length, slice_get};
ghost use Rattle.bb_base.specs.Net.{driven};
ghost use Rattle.bb_terms.specs.Lines.{d_of};
ghost use Rattle.bb_terms.specs.Plan.{chain};
ghost use Rattle.bb_terms.specs.Reads.{read_behind};
ghost use Rattle.bb_lay.specs.Tables.{read_past, d_over, line_in, AreTables, IsOn};

use bb_base::{Flop, NetId, Netlist};
use bb_terms::{Cell, Kind, Plan, Wire};
use std::alloc::{AllocError, Global};

/// All cells of the chain.
pub(crate) fn chain_of(alloc: Global, plan: &Plan) -> Result<Vec<Cell>, AllocError>
    ensures { IfOk result (λ cells. cells.items ≡ chain plan.now) }
{
    let mut cells = Vec::new(alloc);
    'registers: for register in &plan.registers {
        cells.extend_from_slice(&register.cells)?;
    }
    Ok(cells)
}

/// Puts what is read behind the cells at their nets. Where two stand behind one net, the first counts.
fn put_cells(reads: &mut [Wire], cells: &[Cell])
    requires few { length cells.now < 2 ^ 32 }
    requires within { All (IsOn (length reads.old)) cells.now }
    ensures { (net : ℕ) (old : _) → slice_get reads.old net ≡ Some old → slice_get reads.new net ≡ Some (read_past 0 cells.now net old) }
{
    let mut i = cells.len();
    'cells: while i > 0 {
        i -= 1;
        let cell = cells[i];
        if cell.kind.is_behind() {
            reads[cell.net.0 as usize] = Wire::Read(i as u32);
        }
    }
}

/// What is read of each net, behind these cells.
pub(crate) fn reads_of(alloc: Global, nets: u32, cells: &[Cell]) -> Result<Vec<Wire>, AllocError>
    requires few { length cells.now < 2 ^ 32 }
    requires within { All (IsOn nets) cells.now }
    ensures long { IfOk result (λ reads. length reads.items ≡ nets) }
    ensures each { IfOk result (λ reads. (net : ℕ) → net < nets → slice_get reads.items net ≡ Some (read_behind 0 cells.now net)) }
{
    let mut reads = Vec::new(alloc);
    'nets: for net in 0..nets {
        reads.push(Wire::Kept(net))?;
    }
    put_cells(&mut reads, cells);
    Ok(reads)
}

/// Puts the d of each flip-flop at its q. Where two have one q, the first counts.
fn put_flops(ds: &mut [NetId], flops: &[Flop])
    requires within { All (λ f. f.q < length ds.old) flops.now }
    ensures { (net : ℕ) (old : _) → slice_get ds.old net ≡ Some old → slice_get ds.new net ≡ Some (d_over flops.now net old) }
{
    let mut i = flops.len();
    'flops: while i > 0 {
        i -= 1;
        let flop = flops[i];
        ds[flop.q.0 as usize] = flop.d;
    }
}

/// The d of the flip-flop with each net as its q, and the net itself where there is none.
pub(crate) fn ds_of(alloc: Global, nets: u32, flops: &[Flop]) -> Result<Vec<NetId>, AllocError>
    requires within { All (λ f. f.q < nets) flops.now }
    ensures long { IfOk result (λ ds. length ds.items ≡ nets) }
    ensures each { IfOk result (λ ds. (net : ℕ) → net < nets → slice_get ds.items net ≡ Some (d_of flops.now net)) }
{
    let mut ds = Vec::new(alloc);
    'nets: for net in 0..nets {
        ds.push(NetId(net))?;
    }
    put_flops(&mut ds, flops);
    Ok(ds)
}

/// What is read of each net of a netlist, and the d of each flip-flop.
#[derive(Drop)]
pub(crate) struct Tables {
    pub(crate) reads: Vec<Wire>,
    pub(crate) ds: Vec<NetId>,
}

/// The tables of a plan.
pub(crate) fn tables_of(
    alloc: Global,
    netlist: &Netlist,
    plan: &Plan,
    cells: &[Cell],
) -> Result<Tables, AllocError>
    requires cells { cells.now ≡ chain plan.now }
    requires few { length cells.now < 2 ^ 32 }
    requires within { All (IsOn (length (driven netlist.now))) cells.now }
    ensures { IfOk result (λ tables. AreTables netlist.now plan.now tables.reads.items tables.ds.items) }
{
    let reads = reads_of(alloc, netlist.nets(), cells)?;
    let ds = ds_of(alloc, netlist.nets(), netlist.flops())?;
    Ok(Tables { reads, ds })
}

/// The line of a cell.
pub(crate) fn line_of(reads: &[Wire], ds: &[NetId], cell: Cell) -> Wire
    requires net { cell.net < length ds.now }
    requires nets { All (λ d. d < length reads.now) ds.now }
    ensures { result ≡ line_in reads.now ds.now cell.kind cell.net }
{
    match cell.kind {
        Kind::State | Kind::Split | Kind::Watch => {
            let d = ds[cell.net.0 as usize];
            reads[d.0 as usize]
        }
        Kind::Input | Kind::Cut | Kind::Output => Wire::Kept(cell.net.0),
    }
}
