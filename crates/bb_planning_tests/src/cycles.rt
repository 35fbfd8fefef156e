// Rows of cycles, by hand. Nets are numbered in the order in which a text declares them, the clock left out.

ghost use Rattle.bb_base.specs.Order.{IsOrder};

use crate::netlists::{HALF, SWAP, TOGGLE, read};
use bb_base::Netlist;
use bb_eqn::{cycle, settle};
use bb_netlist::Order;
use std::alloc::Global;

/// The gates stand against their order: `y` reads `m`, and `m` reads `t`.
const AGAINST: &str =
    "module row (a, b, c, y);\ninput a;\ninput b;\ninput c;\noutput y;\nwire m;\nwire t;\nbuf (y, m);\nnor (m, c, t);\nnand (t, a, b);\nendmodule\n";

/// The bits of all nets, and none where lengths differ or memory lacks.
fn settled_in(
    alloc: Global,
    netlist: &Netlist,
    order: &Order,
    inputs: &[bool],
    state: &[bool],
) -> Option<Vec<bool>>
    requires { IsOrder netlist.now.gates order.now }
{
    if inputs.len() != netlist.inputs().len() || state.len() != netlist.flops().len() {
        return None;
    }
    let mut values = vec![in alloc; true; netlist.nets() as usize].ok()?;
    settle(netlist, order, inputs, state, &mut values);
    Some(values)
}

/// The same of a text's netlist.
fn settled(alloc: Global, text: &str, inputs: &[bool], state: &[bool]) -> Option<Vec<bool>> {
    let (named, order) = read(alloc, text)?;
    settled_in(alloc, named.netlist(), &order, inputs, state)
}

/// The bits of all nets, and none where lengths differ or memory lacks. The state is left as the cycle leaves it.
fn cycled_in(
    alloc: Global,
    netlist: &Netlist,
    order: &Order,
    inputs: &[bool],
    state: &mut [bool],
) -> Option<Vec<bool>>
    requires { IsOrder netlist.now.gates order.now }
{
    if inputs.len() != netlist.inputs().len() || state.len() != netlist.flops().len() {
        return None;
    }
    let mut values = vec![in alloc; true; netlist.nets() as usize].ok()?;
    cycle(netlist, order, inputs, state, &mut values);
    Some(values)
}

/// The same of a text's netlist.
fn cycled(alloc: Global, text: &str, inputs: &[bool], state: &mut [bool]) -> Option<Vec<bool>> {
    let (named, order) = read(alloc, text)?;
    cycled_in(alloc, named.netlist(), &order, inputs, state)
}

/// These are the bits.
fn are(found: Option<Vec<bool>>, bits: &[bool]) -> bool {
    match found {
        Some(values) => values.as_slice() == bits,
        None => false,
    }
}

#[test]
fn a_cycle_gives_each_net_its_bit(rt: HostRuntime) {
    let rows: [(&str, &[bool], &[bool]); 8] = [
        (HALF, &[false, false], &[false, false, false, false]),
        (HALF, &[false, true], &[false, true, true, false]),
        (HALF, &[true, false], &[true, false, true, false]),
        (HALF, &[true, true], &[true, true, false, true]),
        (
            AGAINST,
            &[true, true, false],
            &[true, true, false, true, true, false],
        ),
        (
            AGAINST,
            &[true, true, true],
            &[true, true, true, false, false, false],
        ),
        (
            AGAINST,
            &[false, true, false],
            &[false, true, false, false, false, true],
        ),
        (
            AGAINST,
            &[true, false, true],
            &[true, false, true, false, false, true],
        ),
    ];
    for (text, inputs, wanted) in rows {
        assert!(rt;
            are(settled(rt.alloc(), text, inputs, &[]), wanted),
            "{text}"
        );
    }
}

#[test]
fn a_cycle_leaves_the_bits_of_the_ds(rt: HostRuntime) {
    let alloc = rt.alloc();
    let mut toggle = [false];
    assert!(rt; are(cycled(alloc, TOGGLE, &[], &mut toggle), &[false, true]));
    assert!(rt; toggle == [true]);
    assert!(rt; are(cycled(alloc, TOGGLE, &[], &mut toggle), &[true, false]));
    assert!(rt; toggle == [false]);
    let mut swap = [true, false];
    assert!(rt; are(cycled(alloc, SWAP, &[], &mut swap), &[true, false]));
    assert!(rt; swap == [false, true]);
    assert!(rt; are(cycled(alloc, SWAP, &[], &mut swap), &[false, true]));
    assert!(rt; swap == [true, false]);
}
