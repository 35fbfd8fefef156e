// What is made of the netlists of canonical texts.

ghost use Rattle.std.specs.Prelude.{IfSome};
ghost use Rattle.bb_base.specs.Order.{IsOrder};

use crate::premises::{are_in_range, is_fit_for_a_test};
use bb_canon::read_canonical;
use bb_make::{Artifacts, MakeFault, Settings, Summary, make};
use bb_net::Named;
use bb_netlist::{Order, find_order};
use std::alloc::Global;

/// Settings with this width, and else as they are where nothing else is asked for.
pub(crate) fn of_width(width: u32) -> Settings {
    Settings {
        width,
        min_degree: 1,
        max_degree: 16,
        max_cycles: 16777216,
        register: 8,
    }
}

/// The netlist of a text, and the order of its gates.
fn read(alloc: Global, text: &str) -> Option<(Named, Order)>
    ensures { IfSome result (λ found. IsOrder found.0.netlist.gates found.1) }
{
    let Ok(named) = read_canonical(alloc, text.as_bytes()) else {
        return None;
    };
    match find_order(alloc, named.netlist()) {
        Ok(order) => Some((named, order)),
        Err(_) => None,
    }
}

/// What is made of the netlist of a text, or why nothing is.
fn made(alloc: Global, text: &str, settings: &Settings) -> Option<Result<Artifacts, MakeFault>> {
    let (named, order) = read(alloc, text)?;
    if !is_fit_for_a_test(alloc, &named) {
        return None;
    }
    if !are_in_range(settings) {
        return None;
    }
    Some(make(alloc, &named, &order, settings))
}

/// Whether this is counted.
pub(crate) fn counts(alloc: Global, text: &str, settings: &Settings, wanted: Summary) -> bool {
    match made(alloc, text, settings) {
        Some(Ok(made)) => made.summary == wanted,
        _ => false,
    }
}

/// Whether the netlist with its self-test has this text.
pub(crate) fn writes(alloc: Global, text: &str, settings: &Settings, wanted: &str) -> bool {
    match made(alloc, text, settings) {
        Some(Ok(made)) => made.netlist.as_slice() == wanted.as_bytes(),
        _ => false,
    }
}

/// Whether the schedule has this text.
pub(crate) fn schedules(alloc: Global, text: &str, settings: &Settings, wanted: &str) -> bool {
    match made(alloc, text, settings) {
        Some(Ok(made)) => made.schedule.as_slice() == wanted.as_bytes(),
        _ => false,
    }
}

/// Whether the schedule ends so.
pub(crate) fn schedule_ends(alloc: Global, text: &str, settings: &Settings, wanted: &str) -> bool {
    match made(alloc, text, settings) {
        Some(Ok(made)) => made.schedule.as_slice().ends_with(wanted.as_bytes()),
        _ => false,
    }
}

/// Whether the signatures have this text.
pub(crate) fn signs(alloc: Global, text: &str, settings: &Settings, wanted: &str) -> bool {
    match made(alloc, text, settings) {
        Some(Ok(made)) => made.signatures.as_slice() == wanted.as_bytes(),
        _ => false,
    }
}

/// Whether the certificate has this text.
pub(crate) fn certifies(alloc: Global, text: &str, settings: &Settings, wanted: &str) -> bool {
    match made(alloc, text, settings) {
        Some(Ok(made)) => made.certificate.as_slice() == wanted.as_bytes(),
        _ => false,
    }
}

/// Whether nothing is made, for this cause.
pub(crate) fn refuses(alloc: Global, text: &str, settings: &Settings, wanted: MakeFault) -> bool {
    match made(alloc, text, settings) {
        Some(Err(fault)) => fault == wanted,
        _ => false,
    }
}
