//! The registers that are chosen for a netlist: its cuts, the cells that it needs with them, and these in registers.

ghost use Rattle.std.specs.Prelude.{◌≡◌, ◌≤◌, ℕ, length, nat_eq, IfOk, OnOk, IsErrOf};
ghost use Rattle.std.specs.List.{AllByRecursion};
ghost use Rattle.std.specs.Set.{distinct_count};
ghost use Rattle.bb_base.specs.Net.{IsNetlist, driven};
ghost use Rattle.bb_base.specs.Order.{IsOrder};
ghost use Rattle.bb_terms.specs.Cuts.{IsFirstWide};
ghost use Rattle.bb_choose.specs.Arranged.{AreInRange, IsArranged};
ghost use Rattle.bb_choose.specs.Coding.{CanTakeColumns};

use bb_base::Netlist;
use bb_netlist::Order;
use bb_reg::{Grouped, cells, group};
use bb_segment::{CutFault, cuts};
use bb_words::Settings;
use std::alloc::Global;

/// The registers for a netlist, with the leaves of each cell's line.
pub(crate) fn arranged(
    alloc: Global,
    netlist: &Netlist,
    order: &Order,
    settings: &Settings,
) -> Result<Grouped, CutFault>
    requires netlist { IsNetlist netlist.now }
    requires order { IsOrder netlist.now.gates order.now }
    requires few { length (driven netlist.now) ≤ 2097152 }
    requires settings { AreInRange settings.now }
    ensures arranged { IfOk result (IsArranged netlist.now order.now settings.now) }
    ensures ready { IfOk result (CanTakeColumns (length (driven netlist.now))) }
    ensures narrow { OnOk result (AllByRecursion (λ g. distinct_count nat_eq g.ins ≤ settings.now.width) netlist.now.gates) }
    ensures wide { (gate inputs width : ℕ) → IsErrOf result (CutFault.GateTooWide gate inputs width) → IsFirstWide netlist.now.gates width gate inputs }
    ensures width { (gate inputs width : ℕ) → IsErrOf result (CutFault.GateTooWide gate inputs width) → width ≡ settings.now.width }
{
    let cut = cuts(alloc, netlist, order, settings.width)?;
    let draft = cells(alloc, netlist, order, &cut)?;
    Ok(group(alloc, &draft, settings.register)?)
}
