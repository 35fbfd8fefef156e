//! A plan that is valid, with its segments.

ghost use Rattle.std.specs.Prelude.{◌≡◌, IfOk};
ghost use Rattle.bb_base.specs.Order.{IsOrder};
ghost use Rattle.bb_terms.specs.Valid.{IsValidPlan, IsValidFor};

use bb_base::Netlist;
use bb_netlist::Order;
use bb_plan::validate;
use bb_rules::one_fault;
use bb_terms::{Plan, PlanFault, Valid};
use std::alloc::{AllocError, Global};

/// Want of memory, where no rule fails.
fn no_rule(fault: PlanFault) -> AllocError
    requires { fault ≡ PlanFault.NoMemory }
{
    match fault {
        PlanFault::NoMemory => AllocError,
        _ => unreachable!(),
    }
}

/// A valid plan with its segments.
pub(crate) fn checked(
    alloc: Global,
    netlist: &Netlist,
    order: &Order,
    plan: Plan,
) -> Result<Valid, AllocError>
    requires order { IsOrder netlist.now.gates order.now }
    requires valid { IsValidPlan netlist.now plan }
    ensures valid { IfOk result (IsValidFor netlist.now) }
    ensures plan { IfOk result (λ valid. valid.plan ≡ plan) }
{
    one_fault();
    match validate(alloc, netlist, order, plan) {
        Ok(valid) => Ok(valid),
        Err(fault) => Err(no_rule(fault)),
    }
}
