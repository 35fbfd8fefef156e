// Runs of netlists with self-tests, cycle by cycle. Their last two inputs and outputs are the self-test's.

ghost use Rattle.std.specs.Prelude.{IfSome};
ghost use Rattle.bb_base.specs.Order.{IsOrder};

use bb_base::Netlist;
use bb_eqn::cycle;
use bb_net::Named;
use bb_netlist::Order;
use std::alloc::{AllocError, Global};

/// The digits of the outputs' bits.
fn digits(alloc: Global, netlist: &Netlist, values: &[bool]) -> Result<Vec<u8>, AllocError> {
    let mut digits = Vec::new(alloc);
    for net in netlist.outputs() {
        let digit = match values.get(net.0 as usize) {
            Some(true) => b'1',
            Some(false) => b'0',
            None => b'?',
        };
        digits.push(digit)?;
    }
    Ok(digits)
}

/// The outputs of a cycle in which the inputs have these bits; the state is left as the cycle leaves it.
pub(crate) fn outputs(
    alloc: Global,
    named: &Named,
    order: &Order,
    inputs: &[bool],
    state: &mut [bool],
) -> Option<Vec<u8>>
    requires { IsOrder named.now.netlist.gates order.now }
{
    let netlist = named.netlist();
    if inputs.len() != netlist.inputs().len() || state.len() != netlist.flops().len() {
        return None;
    }
    let Ok(mut values) = vec![in alloc; true; netlist.nets() as usize] else {
        return None;
    };
    cycle(netlist, order, inputs, state, &mut values);
    digits(alloc, netlist, &values).ok()
}

/// The original's inputs, and those of the self-test.
fn inputs(alloc: Global, own: &[bool], test: bool, init: bool) -> Result<Vec<bool>, AllocError> {
    let mut inputs = Vec::from_slice(alloc, own)?;
    inputs.push(test)?;
    inputs.push(init)?;
    Ok(inputs)
}

/// The outputs in the first run cycle of a test run: all flip-flops start with one bit, and the original's inputs keep theirs.
pub(crate) fn first_outputs(
    alloc: Global,
    named: &Named,
    order: &Order,
    own: &[bool],
    start: bool,
) -> Option<Vec<u8>>
    requires { IsOrder named.now.netlist.gates order.now }
{
    let mut state = vec![in alloc; start; named.netlist().flops().len()].ok()?;
    let begin = inputs(alloc, own, true, true).ok()?;
    outputs(alloc, named, order, &begin, &mut state)?;
    let run = inputs(alloc, own, true, false).ok()?;
    outputs(alloc, named, order, &run, &mut state)
}

/// What a test run shows: the serial output and the end, a digit for each cycle.
#[derive(Drop)]
pub(crate) struct Shown {
    pub(crate) serial: Vec<u8>,
    pub(crate) done: Vec<u8>,
}

/// What a cycle of a test run shows.
fn show(
    alloc: Global,
    named: &Named,
    order: &Order,
    own: &[bool],
    init: bool,
    state: &mut [bool],
    shown: &mut Shown,
) -> Option<()>
    requires { IsOrder named.now.netlist.gates order.now }
{
    let inputs = inputs(alloc, own, true, init).ok()?;
    let outputs = outputs(alloc, named, order, &inputs, state)?;
    match outputs.as_slice() {
        [.., serial, done] => {
            shown.serial.push(*serial).ok()?;
            shown.done.push(*done).ok()
        }
        _ => None,
    }
}

/// What the first cycles of a test run show: all flip-flops start with one bit, and the original's inputs keep theirs.
fn test_run(
    alloc: Global,
    named: &Named,
    order: &Order,
    own: &[bool],
    start: bool,
    cycles: usize,
) -> Option<Shown>
    requires { IsOrder named.now.netlist.gates order.now }
{
    let mut state = vec![in alloc; start; named.netlist().flops().len()].ok()?;
    let mut shown = Shown {
        serial: Vec::new(alloc),
        done: Vec::new(alloc),
    };
    for number in 0..cycles {
        show(
            alloc,
            named,
            order,
            own,
            number == 0,
            &mut state,
            &mut shown,
        )?;
    }
    Some(shown)
}

/// Whether a test run shows this.
pub(crate) fn shows(
    alloc: Global,
    found: &Option<(Named, Order)>,
    own: &[bool],
    start: bool,
    serial: &[u8],
    done: &[u8],
) -> bool
    requires { IfSome found.now (λ found. IsOrder found.0.netlist.gates found.1) }
{
    let Some((named, order)) = found else {
        return false;
    };
    match test_run(alloc, named, order, own, start, serial.len()) {
        Some(shown) => shown.serial.as_slice() == serial && shown.done.as_slice() == done,
        None => false,
    }
}
