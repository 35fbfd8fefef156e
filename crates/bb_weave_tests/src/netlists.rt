// Netlists that tests read from canonical texts, each with the order of its gates, and those with self-tests.

ghost use Rattle.std.specs.Prelude.{◌≤◌, IfSome};
ghost use Rattle.bb_base.specs.Variables.{bit_count};
ghost use Rattle.bb_base.specs.Order.{IsOrder};
ghost use Rattle.bb_terms.specs.Valid.{IsValidFor};
ghost use Rattle.bb_ctl.specs.OwnNames.{HasOwnNames};

use crate::plans::{Row, plan};
use crate::premises::is_weavable;
use bb_base::Netlist;
use bb_canon::read_canonical;
use bb_net::Named;
use bb_netlist::{Order, find_order};
use bb_plan::validate;
use bb_terms::Valid;
use bb_weave::weave;
use std::alloc::Global;

/// The netlist of a text, and the order of its gates.
pub(crate) fn read(alloc: Global, text: &str) -> Option<(Named, Order)>
    ensures { IfSome result (λ found. IsOrder found.0.netlist.gates found.1) }
{
    let Ok(named) = read_canonical(alloc, text.as_bytes()) else {
        return None;
    };
    match find_order(alloc, named.netlist()) {
        Ok(order) => Some((named, order)),
        Err(_) => None,
    }
}

/// The plan of these registers and sessions with its segments, where it is valid.
fn validated(
    alloc: Global,
    netlist: &Netlist,
    order: &Order,
    degree: u32,
    rows: &[&[Row]],
    compact: &[&[u32]],
) -> Option<Valid>
    requires { IsOrder netlist.now.gates order.now }
    ensures { IfSome result (IsValidFor netlist.now) }
{
    let Ok(plan) = plan(alloc, degree, rows, compact) else {
        return None;
    };
    validate(alloc, netlist, order, plan).ok()
}

/// The netlist with the self-test of a valid plan, and the order of its gates.
fn woven_with(alloc: Global, named: &Named, valid: &Valid) -> Option<(Named, Order)>
    requires valid { IsValidFor named.now.netlist valid.now }
    requires own { HasOwnNames named.now }
    requires few { bit_count named.now.variables ≤ 2097152 }
    ensures { IfSome result (λ found. IsOrder found.0.netlist.gates found.1) }
{
    match weave(alloc, named, valid) {
        Ok(woven) => Some((woven.named, woven.order)),
        Err(_) => None,
    }
}

/// The netlist of a text with the self-test of this plan, and the order of its gates.
pub(crate) fn woven(
    alloc: Global,
    text: &str,
    degree: u32,
    rows: &[&[Row]],
    compact: &[&[u32]],
) -> Option<(Named, Order)>
    ensures { IfSome result (λ found. IsOrder found.0.netlist.gates found.1) }
{
    let (named, order) = read(alloc, text)?;
    if !is_weavable(alloc, &named) {
        return None;
    }
    let valid = validated(alloc, named.netlist(), &order, degree, rows, compact)?;
    woven_with(alloc, &named, &valid)
}
