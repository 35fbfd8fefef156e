// The rules of single cells: each fits its net, no two of one role are on one net, and each column fits.

ghost use Rattle.std.specs.Prelude.{◌≡◌, ◌↔◌, ◌<◌, ℕ, length, All, IfOk, IsTrue};
ghost use Rattle.bb_base.specs.Places.{EachAt};
ghost use Rattle.bb_base.specs.Net.{Netlist as NetlistValue};
ghost use Rattle.bb_terms.specs.Plan.{PlanValue, chain};
ghost use Rattle.bb_terms.specs.Rules.{Fits, MayStand, IsFrame, IsColumn, Kinds, Apart, Columns};
ghost use Rattle.bb_plan.specs.Answers.{IsVerdict};
ghost use Rattle.bb_plan.specs.Tables.{IsFound, AreOutputs, AreBlank, IsApartIn, may_stand};

use crate::table::{BLANK, OnNet, output_marks};
use bb_base::{Driver, NetId, Netlist};
use bb_terms::{Cell, Kind, Plan};
use std::alloc::{AllocError, Global};

/// Rule 3, over the chain of a plan: a cell's net exists and fits its kind. The place is the cell.
pub fn kinds(alloc: Global, netlist: &Netlist, cells: &[Cell]) -> Result<Option<u64>, AllocError>
    ensures { (p : PlanValue) → chain p ≡ cells.now → IfOk result (IsVerdict netlist.now p Kinds) }
{
    let outputs = output_marks(alloc, netlist)?;
    Ok(first_unfit(netlist, &outputs, cells))
}

fn first_unfit(netlist: &Netlist, outputs: &[bool], cells: &[Cell]) -> Option<u64>
    requires { AreOutputs netlist.now outputs.now }
    ensures { IsFound cells.now (λ i c. Fits netlist.now c) result }
{
    'cells: for (place, cell) in cells.iter().enumerate() {
        if !fits(netlist, outputs, cell.kind, cell.net) {
            return Some(place as u64);
        }
    }
    None
}

fn fits(netlist: &Netlist, outputs: &[bool], kind: Kind, net: NetId) -> bool
    requires { AreOutputs netlist.now outputs.now }
    ensures { IsTrue result ↔ MayStand netlist.now kind net }
{
    if net.0 >= netlist.nets() {
        return false;
    }
    may_stand(kind, netlist.driver(net), outputs[net.0 as usize])
}

/// Whether a cell of this kind may stand on a net with this driver, which is an output or isn't.
fn may_stand(kind: Kind, driver: Driver, is_output: bool) -> bool
    ensures { result ≡ may_stand kind driver is_output }
{
    match driver {
        Driver::Input(_) => matches!(kind, Kind::Input),
        Driver::Flop(_) => matches!(kind, Kind::State | Kind::Split | Kind::Watch),
        Driver::Gate(_) => match kind {
            Kind::Cut => true,
            Kind::Output => is_output,
            _ => false,
        },
    }
}

/// Rule 4, over the chain of a plan whose cells fit their nets: no net is in two source cells, and no line in two observers, where
/// the lines of a flip-flop's d are one and those of a gate's net are one. The place is the second cell.
pub fn apart(alloc: Global, netlist: &Netlist, cells: &[Cell]) -> Result<Option<u64>, AllocError>
    requires { EachAt cells.now (λ i c. Fits netlist.now c) }
    ensures { (p : PlanValue) → chain p ≡ cells.now → IfOk result (IsVerdict netlist.now p Apart) }
{
    let mut table = vec![in alloc; BLANK; netlist.nets() as usize]?;
    Ok(first_meeting(&mut table, cells))
}

fn first_meeting(table: &mut [OnNet], cells: &[Cell]) -> Option<u64>
    requires blank { AreBlank table.old }
    requires within { All (λ c. c.net < length table.old) cells.now }
    ensures { IsFound cells.now (IsApartIn cells.now) result }
{
    'cells: for (place, cell) in cells.iter().enumerate() {
        let net = cell.net.0 as usize;
        if table[net].meets(cell.kind) {
            return Some(place as u64);
        }
        table[net] = table[net].with(cell.kind);
    }
    None
}

/// Rule 10: a column is below 2^degree, and 0 in a cell that is no source. The place is the cell.
pub fn columns(plan: &Plan, cells: &[Cell]) -> Option<u64>
    requires frame { IsFrame plan.now }
    requires chain { cells.now ≡ chain plan.now }
    ensures { (a : NetlistValue ℕ) → IsVerdict a plan.now Columns result }
{
    'cells: for (place, cell) in cells.iter().enumerate() {
        if !is_column(plan, cell) {
            return Some(place as u64);
        }
    }
    None
}

fn is_column(plan: &Plan, cell: &Cell) -> bool
    requires { IsFrame plan.now }
    ensures { IsTrue result ↔ IsColumn plan.now cell.now }
{
    if cell.column >= 1u32 << plan.degree {
        return false;
    }
    if cell.kind.is_source() {
        return true;
    }
    cell.column == 0
}
