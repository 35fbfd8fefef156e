//! The lines of observers: the source cells at which each walk back ends.

ghost use Rattle.std.specs.Prelude.{◌≡◌, ◌<◌, ◌≤◌, ℕ, true, None, Some, length, IfOk, OnOk, IfSome, IsErrOf, slice_get};
ghost use Rattle.std.specs.List.{AllZip};
ghost use Rattle.bb_base.specs.Net.{driven, IsNetlist};
ghost use Rattle.bb_terms.specs.Paths.{Start as PlainStart};
ghost use Rattle.bb_terms.specs.Support.{start_in, StartExists};
ghost use Rattle.bb_terms.specs.Kinds.{is_observer};
ghost use Rattle.bb_terms.specs.Plan.{observers, chain};
ghost use Rattle.bb_terms.specs.Lines.{IsStart};
ghost use Rattle.bb_terms.specs.Rules.{Holds, FailsAt, Widths, Fits, IsNarrow, AreLeavesOf};
ghost use Rattle.bb_plan.specs.Answers.{MeetsTo};
ghost use Rattle.bb_plan.specs.Layout.{IsLayout, IsObservedLine};

use crate::layout::Layout;
use crate::sources::ascending_numbers;
use arrayvec::ArrayVec;
use bb_base::{Driver, NetId, Netlist};
use bb_netlist::Order;
use bb_segment::{Walk, support};
use bb_terms::{Cell, Plan, PlanFault, Start};
use std::alloc::Global;
use std::marker::Model;

/// The line of an observer: its cell's number, and the numbers of its leaves' source cells in ascending order.
#[derive(Drop)]
pub(crate) struct Line {
    pub(crate) cell: u32,
    pub(crate) sources: ArrayVec<u32, 16>,
}

impl Model for Line {
    ghost use Rattle.bb_plan.specs.Layout.{LineValue};

    ghost Value = { LineValue };

    ghost view = { λ l. record { cell = l.cell; sources = l.sources.items } };
}

/// Where the walk back from an observer starts: at the d of its flip-flop, or behind the gate of its net.
fn start_of(netlist: &Netlist, cell: Cell) -> Start
    requires netlist { IsNetlist netlist.now }
    requires fits { Fits netlist.now cell }
    requires observer { is_observer cell.kind ≡ true }
    ensures exists { StartExists netlist.now result }
    ensures begins { (from : PlainStart ℕ) → start_in netlist.now.gates result ≡ Some from → IsStart netlist.now cell from }
{
    match netlist.driver(cell.net) {
        Driver::Flop(number) => {
            let flop = &netlist.flops()[number as usize];
            Start::Net(flop.d)
        }
        Driver::Gate(number) => Start::Gate(number),
        Driver::Input(_) => unreachable!(),
    }
}

/// The leaves of an observer's line, where they are no more than the width.
fn leaves_of(
    netlist: &Netlist,
    order: &Order,
    plan: &Plan,
    layout: &Layout,
    cell: Cell,
    walk: &mut Walk,
) -> Option<ArrayVec<NetId, 16>>
    requires width { plan.now.width ≤ 12 }
    requires layout { IsLayout netlist.now plan.now layout.now.links.items layout.now.stops.items layout.now.sources.items }
    requires fits { Fits netlist.now cell }
    requires observer { is_observer cell.kind ≡ true }
    requires walk { walk.old ≡ length (driven netlist.now) }
    ensures leaves { IfSome result (λ leaves. AreLeavesOf netlist.now plan.now cell leaves.items) }
    ensures narrow { IfSome result (λ leaves. length leaves.items ≤ plan.now.width) }
    ensures wide { result ≡ None → IsNarrow netlist.now plan.now cell → ⊥ }
    ensures walk { walk.new ≡ walk.old }
{
    let start = start_of(netlist, cell);
    match support(netlist, order, &layout.stops, start, walk) {
        Ok(leaves) => {
            if leaves.len() > plan.width as usize {
                return None;
            }
            Some(leaves)
        }
        Err(_) => None,
    }
}

/// The line of an observer, where its leaves are no more than the width.
fn line_of(
    netlist: &Netlist,
    order: &Order,
    plan: &Plan,
    layout: &Layout,
    number: u32,
    cell: Cell,
    walk: &mut Walk,
) -> Option<Line>
    requires before { MeetsTo netlist.now plan.now 10 }
    requires layout { IsLayout netlist.now plan.now layout.now.links.items layout.now.stops.items layout.now.sources.items }
    requires stands { slice_get (chain plan.now) number ≡ Some cell }
    requires observer { is_observer cell.kind ≡ true }
    requires walk { walk.old ≡ length (driven netlist.now) }
    ensures line { IfSome result (IsObservedLine netlist.now plan.now (number, cell)) }
    ensures narrow { IfSome result (λ line. IsNarrow netlist.now plan.now cell) }
    ensures wide { result ≡ None → IsNarrow netlist.now plan.now cell → ⊥ }
    ensures walk { walk.new ≡ walk.old }
{
    match leaves_of(netlist, order, plan, layout, cell, walk) {
        Some(leaves) => Some(Line {
            cell: number,
            sources: ascending_numbers(&layout.sources, &leaves),
        }),
        None => None,
    }
}

/// The lines of all observers in the order of the chain, or the first observer whose line has more leaves than the width.
pub(crate) fn lines_of(
    alloc: Global,
    netlist: &Netlist,
    order: &Order,
    plan: &Plan,
    layout: &Layout,
) -> Result<Vec<Line>, PlanFault>
    requires before { MeetsTo netlist.now plan.now 10 }
    requires layout { IsLayout netlist.now plan.now layout.now.links.items layout.now.stops.items layout.now.sources.items }
    ensures lines { IfOk result (λ lines. AllZip (IsObservedLine netlist.now plan.now) (observers plan.now) lines.items) }
    ensures narrow { OnOk result (Holds netlist.now plan.now Widths) }
    ensures wide { (number place : ℕ) → IsErrOf result (PlanFault.Rule number place) → (number ≡ 11) × FailsAt netlist.now plan.now Widths place }
{
    let mut walk = Walk::new(alloc, netlist)?;
    let mut lines = Vec::new(alloc);
    'links: for (number, link) in layout.links.iter().enumerate() {
        if link.cell.kind.is_observer() {
            let place = number as u32;
            let Some(line) = line_of(netlist, order, plan, layout, place, link.cell, &mut walk)
            else {
                return Err(PlanFault::Rule { number: 11, place });
            };
            lines.push(line)?;
        }
    }
    Ok(lines)
}
