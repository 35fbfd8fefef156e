//! The cuts that leave every gate a narrow support.

ghost use Rattle.std.specs.Prelude.{◌≡◌, ◌≤◌, ℕ, false, List, length, Contains, Some, slice_get, nat_eq, IfOk, OnOk, IsErrOf};
ghost use Rattle.std.specs.List.{AllByRecursion};
ghost use Rattle.std.specs.Set.{distinct_count};
ghost use Rattle.std.specs.List.Sorted.{IsPermutation, IsSorted};
ghost use Rattle.std.specs.Ordering.{nat_cmp};
ghost use Rattle.bb_base.specs.Net.{Gate as GateValue};
ghost use Rattle.bb_base.specs.Order.{IsOrder};
ghost use Rattle.bb_terms.specs.Paths.{Behind, is_free};
ghost use Rattle.bb_terms.specs.Support.{AreLeaves};
ghost use Rattle.bb_terms.specs.Cuts.{AreCuts, IsFirstWide, is_stop_with};

use crate::CutFault;
use crate::cutting::{first_state, run};
use crate::readers::readers_of;
use crate::sets::check_widths;
use bb_base::{NetId, Netlist};
use bb_netlist::Order;
use std::alloc::{AllocError, Global};

/// The nets of some numbers.
fn nets_of(alloc: Global, numbers: &[u32]) -> Result<Vec<NetId>, AllocError>
    ensures { IfOk result (λ nets. nets.items ≡ numbers.now) }
{
    let mut nets = Vec::new(alloc);
    'numbers: for number in numbers {
        nets.push(NetId(*number))?;
    }
    Ok(nets)
}

/// The nets of some numbers, in ascending order.
fn ascending_nets(alloc: Global, numbers: &mut [u32]) -> Result<Vec<NetId>, AllocError>
    ensures moved { IfOk result (λ nets. IsPermutation numbers.old nets.items) }
    ensures sorted { IfOk result (λ nets. IsSorted nat_cmp nets.items) }
{
    numbers.sort_unstable();
    nets_of(alloc, numbers)
}

/// The nets to cut, ascending, so that no gate's support has more than `width` nets.
///
/// While some gate's support has, the first such gate in order has the input cut that is no stop and has the most leaves, the least
/// number among equals. Refused is the first gate by number with more different inputs than the width, before anything is cut.
///
/// Gates drive the cuts, and with them no gate has more leaves behind it than the width.
pub fn cuts(
    alloc: Global,
    netlist: &Netlist,
    order: &Order,
    width: u32,
) -> Result<Vec<NetId>, CutFault>
    requires order { IsOrder netlist.now.gates order.now }
    requires width { width ≤ 12 }
    ensures cuts { IfOk result (λ cuts. AreCuts netlist.now.gates order.now width cuts.items) }
    ensures driven { IfOk result (λ cuts. AllByRecursion (λ net. is_free netlist.now.gates net ≡ false) cuts.items) }
    ensures short { IfOk result (λ cuts. (g : GateValue ℕ) (leaves : List ℕ) → Contains netlist.now.gates g → AreLeaves netlist.now.gates (is_stop_with netlist.now.gates cuts.items) (Behind g) leaves → length leaves ≤ width) }
    ensures narrow { OnOk result ((h : ℕ) (g : GateValue ℕ) → slice_get netlist.now.gates h ≡ Some g → distinct_count nat_eq g.ins ≤ width) }
    ensures wide { (gate inputs most : ℕ) → IsErrOf result (CutFault.GateTooWide gate inputs most) → IsFirstWide netlist.now.gates width gate inputs }
    ensures width { (gate inputs most : ℕ) → IsErrOf result (CutFault.GateTooWide gate inputs most) → most ≡ width }
{
    let gates = netlist.gates();
    let nets = netlist.nets();
    match check_widths(alloc, nets, gates, width) {
        Ok(()) => {}
        Err(fault) => return Err(fault),
    }
    let readers = readers_of(alloc, nets, gates, order.gates())?;
    let mut state = first_state(alloc, nets, gates)?;
    run(alloc, gates, order.gates(), width, &readers, &mut state)?;
    Ok(ascending_nets(alloc, &mut state.turns)?)
}
