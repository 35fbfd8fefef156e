//! The rules that need a walk through gates, 11 to 13, in their order.

ghost use Rattle.std.specs.Prelude.{ℕ, IfOk, OnOk, IsErrOf, Some};
ghost use Rattle.std.specs.List.{AllZip};
ghost use Rattle.bb_plan.specs.Answers.{MeetsTo, IsVerdict};
ghost use Rattle.bb_terms.specs.Plan.{observers};
ghost use Rattle.bb_terms.specs.Rules.{Conflicts};
ghost use Rattle.bb_terms.specs.Valid.{IsSegmentOf};
ghost use Rattle.bb_plan.specs.Answered.{IsAnsweredFault};
ghost use Rattle.bb_plan.specs.Layout.{IsLayout, IsObservedLine};

use crate::conflicts::{feeders_of, first_clash};
use crate::layout::{Layout, layout_of};
use crate::lines::{Line, lines_of};
use crate::segments::segments_of;
use bb_base::Netlist;
use bb_netlist::Order;
use bb_terms::{Plan, PlanFault, Segment};
use std::alloc::{AllocError, Global};

/// The first session in which a register compacts that holds a leaf of a line compacting there.
fn first_conflict(
    alloc: Global,
    netlist: &Netlist,
    plan: &Plan,
    layout: &Layout,
    lines: &[Line],
) -> Result<Option<u32>, AllocError>
    requires before { MeetsTo netlist.now plan.now 10 }
    requires layout { IsLayout netlist.now plan.now layout.now.links.items layout.now.stops.items layout.now.sources.items }
    requires lines { AllZip (IsObservedLine netlist.now plan.now) (observers plan.now) lines.now }
    ensures { IfOk result (IsVerdict netlist.now plan.now Conflicts) }
{
    let feeders = feeders_of(alloc, &plan.registers, &layout.links, lines)?;
    first_clash(alloc, &plan.sessions, &feeders)
}

/// The segments of a plan that meets the rules before, or the first of rules 11 to 13 that it doesn't meet.
pub(crate) fn walked_segments(
    alloc: Global,
    netlist: &Netlist,
    order: &Order,
    plan: &Plan,
) -> Result<Vec<Segment>, PlanFault>
    requires before { MeetsTo netlist.now plan.now 10 }
    ensures segments { IfOk result (λ segments. AllZip (IsSegmentOf netlist.now plan.now) (observers plan.now) segments.items) }
    ensures meets { OnOk result (MeetsTo netlist.now plan.now 13) }
    ensures fault { (number place : ℕ) → IsErrOf result (PlanFault.Rule number place) → IsAnsweredFault netlist.now plan.now number place }
{
    let layout = layout_of(alloc, netlist, plan)?;
    let lines = match lines_of(alloc, netlist, order, plan, &layout) {
        Ok(lines) => lines,
        Err(fault) => return Err(fault),
    };
    if let Some(place) = first_conflict(alloc, netlist, plan, &layout, &lines)? {
        return Err(PlanFault::Rule { number: 12, place });
    }
    match segments_of(alloc, &layout.links, &lines) {
        Ok(segments) => Ok(segments),
        Err(fault) => Err(fault),
    }
}
