ghost use Rattle.std.specs.Prelude.{◌≡◌, length, IfOk};
ghost use Rattle.bb_base.specs.Net.{driven};
ghost use Rattle.bb_terms.specs.Plan.{PlanValue, chain};
ghost use Rattle.bb_terms.specs.Rules.{Served, IsServed, net_numbers};
ghost use Rattle.bb_plan.specs.Answers.{IsVerdict};
ghost use Rattle.bb_plan.specs.Tables.{IsFound, AreOutputs, AreStanding, is_served};

use crate::table::{OnNet, output_marks, standing};
use bb_base::{Driver, NetId, Netlist};
use bb_terms::Cell;
use std::alloc::{AllocError, Global};

/// Rule 5, over the chain of a plan: an input has an Input cell, a flip-flop's q a State cell, or Split and Watch, and an output that a
/// gate drives an Output or Cut cell. The place is the least net without.
pub fn served(alloc: Global, netlist: &Netlist, cells: &[Cell]) -> Result<Option<u64>, AllocError>
    ensures { (p : PlanValue) → chain p ≡ cells.now → IfOk result (IsVerdict netlist.now p Served) }
{
    let outputs = output_marks(alloc, netlist)?;
    let table = standing(alloc, netlist.nets(), cells)?;
    Ok(first_unserved(netlist, &outputs, &table))
}

fn first_unserved(netlist: &Netlist, outputs: &[bool], table: &[OnNet]) -> Option<u64>
    requires outputs { AreOutputs netlist.now outputs.now }
    requires table { length table.now ≡ length (driven netlist.now) }
    ensures { (p : PlanValue) → AreStanding (length (driven netlist.now)) (chain p) table.now → IsFound (net_numbers netlist.now) (λ i net. IsServed netlist.now p net) result }
{
    'nets: for net in 0..netlist.nets() {
        let driver = netlist.driver(NetId(net));
        if !is_served(driver, outputs[net as usize], table[net as usize]) {
            return Some(u64::from(net));
        }
    }
    None
}

/// Whether a net with this driver, which is an output or isn't, has the cells that it needs.
fn is_served(driver: Driver, is_output: bool, on: OnNet) -> bool
    ensures { result ≡ is_served driver is_output on }
{
    match driver {
        Driver::Input(_) => on.input,
        Driver::Flop(_) => on.state || on.split && on.watch,
        Driver::Gate(_) => !is_output || on.output || on.cut,
    }
}
