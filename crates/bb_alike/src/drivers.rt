//! What drives a net of one netlist, beside what drives the net at its site in another.

ghost use Rattle.std.specs.Prelude.{◌≡◌, ◌↔◌, ◌<◌, ℕ, map, length, All, None, Some, IsTrue, Contains, slice_index_or};
ghost use Rattle.bb_base.specs.Places.{IsFirstWrong};
ghost use Rattle.bb_net.specs.Sites.{site_of, sited};
ghost use Rattle.bb_base.specs.Net.{renamed_gate, renamed_flop};
ghost use Rattle.bb_alike.specs.Alike.{Feeds, Outside, Through, Held, IsFedAlike, NetsAgree};
ghost use Rattle.bb_alike.specs.Found.{AreNetsAt};

use crate::nets::net_count;
use bb_base::{Driver, Flop, Gate, NetId, Op};
use bb_net::Named;

/// The entry of a net.
fn entry_of(nets: &[Option<NetId>], net: NetId) -> Option<NetId>
    requires { net < length nets.now }
    ensures { result ≡ slice_index_or nets.now net None }
{
    nets[net.0 as usize]
}

/// Whether a net of one netlist leads to this net of the other.
fn is_same_net(nets: &[Option<NetId>], net: NetId, other: NetId) -> bool
    requires { net < length nets.now }
    ensures { IsTrue result ↔ (slice_index_or nets.now net None ≡ Some other) }
{
    match nets[net.0 as usize] {
        Some(found) => found == other,
        None => false,
    }
}

/// Whether nets of one netlist lead to these of the other, in order.
fn are_same_nets(nets: &[Option<NetId>], from: &[NetId], to: &[NetId]) -> bool
    requires { All (λ net. net < length nets.now) from.now }
    ensures { IsTrue result ↔ (map (λ net. slice_index_or nets.now net None) from.now ≡ map Some to.now) }
{
    if from.len() != to.len() {
        return false;
    }
    'nets: for (place, net) in from.iter().enumerate() {
        if !is_same_net(nets, *net, to[place]) {
            return false;
        }
    }
    true
}

/// Whether a net is an input.
fn is_input(written: &Named, net: NetId) -> bool
    requires { net < length written.now.names }
    ensures { IsTrue result ↔ Feeds (sited written.now).netlist (site_of written.now net) Outside }
{
    let netlist = written.netlist();
    matches!(netlist.driver(net), Driver::Input(_))
}

/// Whether both are one operator.
fn is_same_operator(op: Op, other: Op) -> bool
    ensures { IsTrue result ↔ (op ≡ other) }
{
    op == other
}

/// Whether a gate of one netlist leads to this gate of the other: the operator is the same, and so are the inputs in order.
fn is_like(nets: &[Option<NetId>], gate: &Gate, other: &Gate) -> bool
    requires { All (λ net. net < length nets.now) gate.now.ins }
    ensures { IsTrue result ↔ ((gate.now.op ≡ other.now.op) × (map (λ net. slice_index_or nets.now net None) gate.now.ins ≡ map Some other.now.ins)) }
{
    if !is_same_operator(gate.op, other.op) {
        return false;
    }
    are_same_nets(nets, &gate.ins, &other.ins)
}

/// Whether a gate like this one of the other netlist drives a net.
fn is_gate(woven: &Named, written: &Named, nets: &[Option<NetId>], gate: &Gate, net: NetId) -> bool
    requires nets { AreNetsAt woven.now written.now nets.now }
    requires gate { Contains woven.now.netlist.gates gate.now }
    requires net { net < length written.now.names }
    requires site { site_of written.now net ≡ site_of woven.now gate.now.out }
    ensures { IsTrue result ↔ Feeds (sited written.now).netlist (site_of written.now net) (Through (renamed_gate (site_of woven.now) gate.now)) }
{
    // `netlist` ensures that both are named netlists.
    let _woven = woven.netlist();
    let netlist = written.netlist();
    match netlist.driver(net) {
        Driver::Gate(number) => {
            let other = &netlist.gates()[number as usize];
            is_like(nets, gate, other)
        }
        _ => false,
    }
}

/// Whether a flip-flop like this one of the other netlist drives a net.
fn is_flop(woven: &Named, written: &Named, nets: &[Option<NetId>], flop: Flop, net: NetId) -> bool
    requires nets { AreNetsAt woven.now written.now nets.now }
    requires flop { Contains woven.now.netlist.flops flop }
    requires net { net < length written.now.names }
    requires site { site_of written.now net ≡ site_of woven.now flop.q }
    ensures { IsTrue result ↔ Feeds (sited written.now).netlist (site_of written.now net) (Held (renamed_flop (site_of woven.now) flop)) }
{
    // `netlist` ensures that both are named netlists.
    let _woven = woven.netlist();
    let netlist = written.netlist();
    match netlist.driver(net) {
        Driver::Flop(number) => {
            let other = netlist.flops()[number as usize];
            is_same_net(nets, flop.d, other.d)
        }
        _ => false,
    }
}

/// Whether nets at one site have the same driver.
fn is_driven_alike(
    woven: &Named,
    written: &Named,
    nets: &[Option<NetId>],
    net: NetId,
    other: NetId,
) -> bool
    requires nets { AreNetsAt woven.now written.now nets.now }
    requires net { net < length woven.now.names }
    requires other { other < length written.now.names }
    requires site { site_of written.now other ≡ site_of woven.now net }
    ensures { IsTrue result ↔ IsFedAlike woven.now written.now (site_of woven.now net) }
{
    // `netlist` ensures that both are named netlists.
    let _written = written.netlist();
    let netlist = woven.netlist();
    match netlist.driver(net) {
        Driver::Input(_) => is_input(written, other),
        Driver::Gate(number) => {
            let gate = &netlist.gates()[number as usize];
            is_gate(woven, written, nets, gate, other)
        }
        Driver::Flop(number) => {
            let flop = netlist.flops()[number as usize];
            is_flop(woven, written, nets, flop, other)
        }
    }
}

/// Whether a net has the same driver in the other netlist.
fn is_alike(woven: &Named, written: &Named, nets: &[Option<NetId>], net: NetId) -> bool
    requires nets { AreNetsAt woven.now written.now nets.now }
    requires net { net < length woven.now.names }
    ensures { IsTrue result ↔ IsFedAlike woven.now written.now (site_of woven.now net) }
{
    // `netlist` ensures that both are named netlists.
    let _woven = woven.netlist();
    let _written = written.netlist();
    match entry_of(nets, net) {
        Some(other) => is_driven_alike(woven, written, nets, net, other),
        None => false,
    }
}

/// The first net of one netlist that the other drives otherwise, or not at all.
pub(crate) fn first_unlike(woven: &Named, written: &Named, nets: &[Option<NetId>]) -> Option<u32>
    requires nets { AreNetsAt woven.now written.now nets.now }
    ensures none { result ≡ None → NetsAgree woven.now written.now }
    ensures first { (net : ℕ) → result ≡ Some net → IsFirstWrong woven.now.names (λ m name. IsFedAlike woven.now written.now (site_of woven.now m)) net }
{
    for net in 0..net_count(woven) {
        if !is_alike(woven, written, nets, NetId(net)) {
            return Some(net);
        }
    }
    None
}
