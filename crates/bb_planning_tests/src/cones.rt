// Rows of supports and cuts, by hand. Nets are numbered in the order in which a text declares them; wires are declared in the order of their
// first use.

ghost use Rattle.std.specs.Prelude.{IfOk, ◌≡◌, length};
ghost use Rattle.bb_base.specs.Net.{driven};
ghost use Rattle.bb_terms.specs.Support.{StartExists};

use crate::netlists::{TOGGLE, read};
use bb_base::{Driver, NetId, Netlist};
use bb_netlist::Order;
use bb_segment::{CutFault, Walk, Wide, cuts, support};
use bb_terms::Start;
use std::alloc::{AllocError, Global};

/// Gates by level, not by number: `t` is wide before `m` is, though `m` drives the first gate.
const BY_LEVEL: &str =
    "module row (a, b, c, y);\ninput a;\ninput b;\ninput c;\noutput y;\nwire m;\nwire t;\nbuf (y, m);\nor (t, a, b);\nor (m, c, t);\nendmodule\n";

/// A gate of nine inputs.
const NINE: &str =
    "module row (a, b, c, d, e, f, g, h, i, y);\ninput a;\ninput b;\ninput c;\ninput d;\ninput e;\ninput f;\ninput g;\ninput h;\ninput i;\noutput y;\nor (y, a, b, c, d, e, f, g, h, i);\nendmodule\n";

/// A gate that reads one input nine times.
const ONE: &str =
    "module row (a, y);\ninput a;\noutput y;\nor (y, a, a, a, a, a, a, a, a, a);\nendmodule\n";

/// A gate of seventeen inputs.
const SEVENTEEN: &str =
    "module row (a, b, c, d, e, f, g, h, i, j, k, l, m, n, o, p, q, y);\ninput a;\ninput b;\ninput c;\ninput d;\ninput e;\ninput f;\ninput g;\ninput h;\ninput i;\ninput j;\ninput k;\ninput l;\ninput m;\ninput n;\ninput o;\ninput p;\ninput q;\noutput y;\nor (y, a, b, c, d, e, f, g, h, i, j, k, l, m, n, o, p, q);\nendmodule\n";

/// The parity of 32 inputs by gates of four, and of two at the end.
const PARITY: &str =
    "module row (x, y);\ninput [31:0] x;\noutput y;\nwire [7:0] u;\nwire [1:0] w;\nxor (u[7], x[31], x[30], x[29], x[28]);\nxor (u[6], x[27], x[26], x[25], x[24]);\nxor (u[5], x[23], x[22], x[21], x[20]);\nxor (u[4], x[19], x[18], x[17], x[16]);\nxor (u[3], x[15], x[14], x[13], x[12]);\nxor (u[2], x[11], x[10], x[9], x[8]);\nxor (u[1], x[7], x[6], x[5], x[4]);\nxor (u[0], x[3], x[2], x[1], x[0]);\nxor (w[1], u[7], u[6], u[5], u[4]);\nxor (w[0], u[3], u[2], u[1], u[0]);\nxor (y, w[1], w[0]);\nendmodule\n";

/// The numbers of nets.
fn numbers(alloc: Global, nets: &[NetId]) -> Result<Vec<u32>, AllocError> {
    let mut numbers = Vec::new(alloc);
    for net in nets {
        numbers.push(net.0)?;
    }
    Ok(numbers)
}

/// The cuts of a text, and none where it is refused.
fn cuts_of(alloc: Global, text: &str, width: u32) -> Option<Vec<u32>> {
    if width > 12 {
        return None;
    }
    let (named, order) = read(alloc, text)?;
    match cuts(alloc, named.netlist(), &order, width) {
        Ok(nets) => match numbers(alloc, &nets) {
            Ok(numbers) => Some(numbers),
            Err(_) => None,
        },
        Err(_) => None,
    }
}

/// The refusal of a text: the gate, its inputs and the width.
fn refusal_of(alloc: Global, text: &str, width: u32) -> Option<(u32, u32, u32)> {
    if width > 12 {
        return None;
    }
    let (named, order) = read(alloc, text)?;
    match cuts(alloc, named.netlist(), &order, width) {
        Err(
            CutFault::GateTooWide {
                gate,
                inputs,
                width,
            },
        ) => Some((gate, inputs, width)),
        _ => None,
    }
}

/// Inputs, flip-flops and these nets are stops.
fn stops_of(alloc: Global, netlist: &Netlist, cuts: &[u32]) -> Result<Vec<bool>, AllocError>
    ensures { IfOk result (λ stops. length stops.items ≡ length (driven netlist.now)) }
{
    let mut stops = vec![in alloc; true; netlist.nets() as usize]?;
    for net in 0..netlist.nets() {
        if let Driver::Gate(_) = netlist.driver(NetId(net)) {
            stops[net as usize] = cuts.contains(&net);
        }
    }
    Ok(stops)
}

/// The leaves of a start, or their count where they are many; none where memory lacks.
fn leaves(
    alloc: Global,
    netlist: &Netlist,
    order: &Order,
    cuts: &[u32],
    start: Start,
) -> Option<Result<Vec<u32>, u32>>
    requires { StartExists netlist.now start }
{
    let stops = stops_of(alloc, netlist, cuts).ok()?;
    let mut walk = Walk::new(alloc, netlist).ok()?;
    match support(netlist, order, &stops, start, &mut walk) {
        Ok(leaves) => Some(Ok(numbers(alloc, &leaves).ok()?)),
        Err(Wide { count }) => Some(Err(count)),
    }
}

/// The same of a net.
fn leaves_at(alloc: Global, text: &str, cuts: &[u32], net: u32) -> Option<Result<Vec<u32>, u32>> {
    let (named, order) = read(alloc, text)?;
    let netlist = named.netlist();
    if net >= netlist.nets() {
        return None;
    }
    leaves(alloc, netlist, &order, cuts, Start::Net(NetId(net)))
}

/// The same behind a gate.
fn leaves_behind(
    alloc: Global,
    text: &str,
    cuts: &[u32],
    gate: u32,
) -> Option<Result<Vec<u32>, u32>> {
    let (named, order) = read(alloc, text)?;
    let netlist = named.netlist();
    if gate as usize >= netlist.gates().len() {
        return None;
    }
    leaves(alloc, netlist, &order, cuts, Start::Gate(gate))
}

/// These are the leaves.
fn are(found: Option<Result<Vec<u32>, u32>>, leaves: &[u32]) -> bool {
    match found {
        Some(Ok(nets)) => nets.as_slice() == leaves,
        _ => false,
    }
}

#[test]
fn cuts_go_by_level_and_by_the_most_leaves(rt: HostRuntime) {
    let rows: [(&str, u32, &[u32]); 4] = [
        (BY_LEVEL, 2, &[5]),
        (BY_LEVEL, 3, &[]),
        (ONE, 8, &[]),
        (PARITY, 4, &[33, 34, 35, 36, 37, 38, 39, 40, 41, 42]),
    ];
    for (text, width, wanted) in rows {
        match cuts_of(rt.alloc(), text, width) {
            Some(nets) => assert!(rt; nets.as_slice() == wanted, "{text}"),
            None => panic!(rt; "{text}"),
        }
    }
}

#[test]
fn a_gate_of_too_many_different_inputs_is_refused(rt: HostRuntime) {
    assert!(rt; refusal_of(rt.alloc(), NINE, 8) == Some((0, 9, 8)));
    assert!(rt; refusal_of(rt.alloc(), NINE, 9).is_none());
    assert!(rt; refusal_of(rt.alloc(), ONE, 8).is_none());
}

#[test]
fn a_line_has_its_leaves(rt: HostRuntime) {
    let alloc = rt.alloc();
    assert!(rt; are(leaves_at(alloc, BY_LEVEL, &[], 3), &[0, 1, 2]));
    assert!(rt; are(leaves_at(alloc, BY_LEVEL, &[5], 3), &[2, 5]));
    assert!(rt; are(leaves_at(alloc, BY_LEVEL, &[5], 5), &[5]));
    assert!(rt; are(leaves_behind(alloc, BY_LEVEL, &[5], 1), &[0, 1]));
    assert!(rt; are(leaves_at(alloc, TOGGLE, &[], 1), &[0]));
    assert!(rt; are(leaves_at(alloc, TOGGLE, &[], 0), &[0]));
    assert!(rt; leaves_at(alloc, SEVENTEEN, &[], 17) == Some(Err(17)));
    assert!(rt; leaves_behind(alloc, SEVENTEEN, &[], 0) == Some(Err(17)));
}
