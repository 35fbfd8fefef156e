// Signatures of plans that are given by hand: nets are numbered in the order in which the text declares them.

ghost use Rattle.bb_base.specs.Order.{IsOrder};

use crate::netlists::{HALF, TOGGLE, read};
use crate::plans::{Row, register};
use bb_base::Netlist;
use bb_netlist::Order;
use bb_plan::validate;
use bb_sign::signatures;
use bb_terms::{Kind, Plan, Session};
use std::alloc::{AllocError, Global};

/// A wire.
const WIRE: &str = "module wires (a, y);\ninput a;\noutput y;\nbuf (y, a);\nendmodule\n";

/// A constant 1.
const ONE: &str = "module one (y);\noutput y;\nassign y = 1'b1;\nendmodule\n";

/// Two flip-flops that take each other's bits, with the nets y and p.
const SWAP: &str =
    "module swap (ck, y);\ninput ck;\noutput y;\nwire p;\ndff bt_f0 (ck, y, p);\ndff bt_f1 (ck, p, y);\nendmodule\n";

/// A net t that is cut, with the nets a, b, y and t.
const CUT: &str =
    "module cut (a, b, y);\ninput a;\ninput b;\noutput y;\nwire t;\nand (t, a, b);\nnor (y, t, b);\nendmodule\n";

/// A plan with these registers and sessions, for lines of at most two leaves.
fn plan(
    alloc: Global,
    degree: u32,
    mask: u32,
    rows: &[&[Row]],
    compact: &[&[u32]],
) -> Result<Plan, AllocError> {
    let mut registers = Vec::new(alloc);
    for cells in rows {
        registers.push(register(alloc, cells)?)?;
    }
    let mut sessions = Vec::new(alloc);
    for numbers in compact {
        sessions.push(Session {
            compact: Vec::from_slice(alloc, numbers)?,
        })?;
    }
    Ok(Plan {
        width: 2,
        degree,
        mask,
        registers,
        sessions,
    })
}

/// The numbers of some lists, one list after the other.
fn joined(alloc: Global, lists: &[Vec<u32>]) -> Result<Vec<u32>, AllocError> {
    let mut numbers = Vec::new(alloc);
    for list in lists {
        numbers.extend_from_slice(list)?;
    }
    Ok(numbers)
}

/// The signatures of all sessions of a plan that is valid for a netlist.
fn signed_in(alloc: Global, netlist: &Netlist, order: &Order, plan: Plan) -> Option<Vec<u32>>
    requires { IsOrder netlist.now.gates order.now }
{
    let valid = validate(alloc, netlist, order, plan).ok()?;
    let lists = signatures(alloc, netlist, order, &valid).ok()?;
    joined(alloc, &lists).ok()
}

/// The same of a text's netlist.
fn signed(alloc: Global, text: &str, plan: Result<Plan, AllocError>) -> Option<Vec<u32>> {
    let (named, order) = read(alloc, text)?;
    signed_in(alloc, named.netlist(), &order, plan.ok()?)
}

/// Whether a plan of degree 1 is valid and has these signatures.
fn signs_as(
    alloc: Global,
    text: &str,
    rows: &[&[Row]],
    compact: &[&[u32]],
    wanted: &[u32],
) -> bool {
    match signed(alloc, text, plan(alloc, 1, 1, rows, compact)) {
        Some(numbers) => numbers.as_slice() == wanted,
        None => false,
    }
}

#[test]
fn a_half_adder_has_the_signatures_of_its_two_outputs(rt: HostRuntime) {
    let sources: &[Row] = &[(Kind::Input, 0, 1), (Kind::Input, 1, 2)];
    let both: &[Row] = &[(Kind::Output, 2, 0), (Kind::Output, 3, 0)];
    let rows: [(u32, u32, u32); 2] = [(2, 3, 2), (3, 5, 3)];
    for (degree, mask, wanted) in rows {
        let plan = plan(rt.alloc(), degree, mask, &[sources, both], &[&[1]]);
        match signed(rt.alloc(), HALF, plan) {
            Some(numbers) => assert!(rt; numbers.as_slice() == [wanted].as_slice()),
            None => panic!(rt; "no signatures"),
        }
    }
    let first: &[Row] = &[(Kind::Output, 2, 0)];
    let second: &[Row] = &[(Kind::Output, 3, 0)];
    let plan = plan(rt.alloc(), 2, 3, &[sources, first, second], &[&[1, 2]]);
    match signed(rt.alloc(), HALF, plan) {
        Some(numbers) => assert!(rt; numbers.as_slice() == [0, 1].as_slice()),
        None => panic!(rt; "no signatures"),
    }
}

#[test]
fn wires_constants_and_flip_flops_have_their_signatures(rt: HostRuntime) {
    let input: &[Row] = &[(Kind::Input, 0, 1)];
    let output: &[Row] = &[(Kind::Output, 1, 0)];
    assert!(rt; signs_as(rt.alloc(), WIRE, &[input, output], &[&[1]], &[1]));
    let only: &[Row] = &[(Kind::Output, 0, 0)];
    assert!(rt; signs_as(rt.alloc(), ONE, &[only], &[&[0]], &[0]));
    let split: &[Row] = &[(Kind::Split, 0, 1)];
    let watch: &[Row] = &[(Kind::Watch, 0, 0)];
    assert!(rt; signs_as(rt.alloc(), TOGGLE, &[split, watch], &[&[1]], &[1]));
    let first: &[Row] = &[(Kind::State, 0, 1)];
    let second: &[Row] = &[(Kind::State, 1, 1)];
    assert!(rt; signs_as(rt.alloc(), SWAP, &[first, second], &[&[0], &[1]], &[1, 1]));
}

#[test]
fn a_cut_net_is_read_from_its_cell_and_observed_behind_its_gate(rt: HostRuntime) {
    let sources: &[Row] = &[(Kind::Input, 0, 1), (Kind::Input, 1, 2)];
    let cut: &[Row] = &[(Kind::Cut, 3, 1)];
    let output: &[Row] = &[(Kind::Output, 2, 0)];
    let plan = plan(rt.alloc(), 2, 3, &[sources, cut, output], &[&[1], &[2]]);
    match signed(rt.alloc(), CUT, plan) {
        Some(numbers) => assert!(rt; numbers.as_slice() == [1, 1].as_slice()),
        None => panic!(rt; "no signatures"),
    }
}
