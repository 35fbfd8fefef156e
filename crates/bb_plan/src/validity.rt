ghost use Rattle.std.specs.Prelude.{◌≡◌, ◌-◌, ◌^◌, ℕ, IfOk, IsErrOf, min};
ghost use Rattle.bb_base.specs.Order.{IsOrder};
ghost use Rattle.bb_terms.specs.Valid.{IsValidFor};
ghost use Rattle.bb_plan.specs.Answered.{IsAnsweredFault};

use crate::bounds::period;
use crate::first::first_misfit;
use crate::walked::walked_segments;
use bb_base::Netlist;
use bb_netlist::Order;
use bb_terms::{Plan, PlanFault, Valid};
use std::alloc::Global;

/// The greatest number that fits, where a place is more.
fn capped(place: u64) -> u32
    ensures { result ≡ min (2 ^ 32 - 1) place }
{
    place.min(u64::from(u32::MAX)) as u32
}

/// A plan with its segments, where it meets all rules over a netlist; else the first rule that fails and the place at which it
/// first does. A place beyond 2^32 - 1 is answered as that number.
///
/// Leaves are found once for each observer. The time is that of these walks and of the leaves of the registers in each session.
pub fn validate(
    alloc: Global,
    netlist: &Netlist,
    order: &Order,
    plan: Plan,
) -> Result<Valid, PlanFault>
    requires order { IsOrder netlist.now.gates order.now }
    ensures valid { IfOk result (IsValidFor netlist.now) }
    ensures plan { IfOk result (λ v. v.plan ≡ plan) }
    ensures rule { (number place : ℕ) → IsErrOf result (PlanFault.Rule number place) → IsAnsweredFault netlist.now plan number place }
{
    if let Some(misfit) = first_misfit(alloc, netlist, &plan)? {
        return Err(PlanFault::Rule {
            number: misfit.number,
            place: capped(misfit.place),
        });
    }
    let segments = match walked_segments(alloc, netlist, order, &plan) {
        Ok(segments) => segments,
        Err(fault) => return Err(fault),
    };
    if let Some(steps) = period(&plan) {
        return Err(PlanFault::Rule {
            number: 14,
            place: capped(steps),
        });
    }
    Ok(Valid::new(plan, segments))
}
