//! The lines of flip-flops, cuts and outputs, and the leaves of each.

ghost use Rattle.std.specs.Prelude.{◌≡◌, ◌<◌, ◌^◌, ◌||◌, ℕ, true, false, length, map, nat_eq, Some, IfOk, OnOk};
ghost use Rattle.std.specs.List.{AllZip, AllByRecursion, list_any};
ghost use Rattle.bb_base.specs.Net.{IsNetlist, driven};
ghost use Rattle.bb_base.specs.Levels.{AreGates};
ghost use Rattle.bb_terms.specs.Paths.{AtNet, is_free};
ghost use Rattle.bb_terms.specs.Support.{AreLeaves, HasLeaves, StartExists, start_in, stop_at};
ghost use Rattle.bb_terms.specs.Lines.{StartsBehind};
ghost use Rattle.bb_reg.specs.LineTables.{AreNarrow, AreStopsOf, IsLineBehind, reading_in};

use arrayvec::ArrayVec;
use bb_base::{Driver, Flop, Gate, NetId, Netlist};
use bb_netlist::Order;
use bb_segment::{Walk, support};
use bb_terms::Start;
use std::alloc::{AllocError, Global};

/// Every net is a stop but the gates' outputs.
fn free_nets(alloc: Global, nets: u32, gates: &[Gate]) -> Result<Vec<bool>, AllocError>
    requires { AreGates nets gates.now }
    ensures long { IfOk result (λ stops. length stops.items ≡ nets) }
    ensures free { IfOk result (λ stops. (net : ℕ) → stop_at stops.items net ≡ is_free gates.now net) }
{
    let mut stops = vec![in alloc; true; nets as usize]?;
    'gates: for gate in gates {
        stops[gate.out.0 as usize] = false;
    }
    Ok(stops)
}

/// Marks the cuts as stops.
fn mark_cuts(stops: &mut [bool], cuts: &[NetId])
    requires { AllByRecursion (λ net. net < length stops.old) cuts.now }
    ensures long { length stops.new ≡ length stops.old }
    ensures stops { (net : ℕ) → stop_at stops.new net ≡ (stop_at stops.old net || list_any (nat_eq net) cuts.now) }
{
    'cuts: for net in cuts {
        stops[net.0 as usize] = true;
    }
}

/// Which nets are stops: those that no gate drives, which are inputs and q's, and the cuts.
pub(crate) fn stops_of(
    alloc: Global,
    netlist: &Netlist,
    cuts: &[NetId],
) -> Result<Vec<bool>, AllocError>
    requires { AllByRecursion (λ net. is_free netlist.now.gates net ≡ false) cuts.now }
    ensures netlist { OnOk result (IsNetlist netlist.now) }
    ensures few { OnOk result (length (driven netlist.now) < 2 ^ 32) }
    ensures long { IfOk result (λ stops. length stops.items ≡ length (driven netlist.now)) }
    ensures stops { IfOk result (λ stops. AreStopsOf netlist.now cuts.now stops.items) }
{
    let mut stops = free_nets(alloc, netlist.nets(), netlist.gates())?;
    mark_cuts(&mut stops, cuts);
    Ok(stops)
}

/// The leaves of a line that has at most 16.
fn leaves_from(
    netlist: &Netlist,
    order: &Order,
    stops: &[bool],
    start: Start,
    walk: &mut Walk,
) -> ArrayVec<NetId, 16>
    requires stops { length stops.now ≡ length (driven netlist.now) }
    requires start { StartExists netlist.now start }
    requires walk { walk.old ≡ length (driven netlist.now) }
    requires narrow { AreNarrow netlist.now.gates (stop_at stops.now) }
    ensures leaves { HasLeaves netlist.now.gates stops.now start result.items }
    ensures walk { walk.new ≡ walk.old }
{
    match support(netlist, order, stops, start, walk) {
        Ok(leaves) => leaves,
        Err(_) => unreachable!(),
    }
}

/// The leaves of the line of each flip-flop.
pub(crate) fn flop_lines(
    alloc: Global,
    netlist: &Netlist,
    order: &Order,
    stops: &[bool],
    walk: &mut Walk,
) -> Result<Vec<ArrayVec<NetId, 16>>, AllocError>
    requires stops { length stops.now ≡ length (driven netlist.now) }
    requires walk { walk.old ≡ length (driven netlist.now) }
    requires narrow { AreNarrow netlist.now.gates (stop_at stops.now) }
    ensures lines { IfOk result (λ lines. AllZip (λ f leaves. AreLeaves netlist.now.gates (stop_at stops.now) (AtNet f.d) leaves) netlist.now.flops (map (λ l. l.items) lines.items)) }
    ensures walk { walk.new ≡ walk.old }
{
    let mut lines = Vec::new(alloc);
    'flops: for flop in netlist.flops() {
        lines.push(leaves_from(netlist, order, stops, Start::Net(flop.d), walk))?;
    }
    Ok(lines)
}

/// The gate behind which the line of a gate's net starts.
fn gate_start(netlist: &Netlist, net: NetId) -> Start
    requires net { net < length (driven netlist.now) }
    requires driven { is_free netlist.now.gates net ≡ false }
    ensures exists { StartExists netlist.now result }
    ensures begins { (from : _) → start_in netlist.now.gates result ≡ Some from → StartsBehind netlist.now net from }
{
    match netlist.driver(net) {
        Driver::Gate(number) => Start::Gate(number),
        _ => unreachable!(),
    }
}

/// The leaves of the line of each of some nets that gates drive.
pub(crate) fn gate_lines(
    alloc: Global,
    netlist: &Netlist,
    order: &Order,
    stops: &[bool],
    nets: &[NetId],
    walk: &mut Walk,
) -> Result<Vec<ArrayVec<NetId, 16>>, AllocError>
    requires stops { length stops.now ≡ length (driven netlist.now) }
    requires walk { walk.old ≡ length (driven netlist.now) }
    requires narrow { AreNarrow netlist.now.gates (stop_at stops.now) }
    requires within { AllByRecursion (λ net. net < length (driven netlist.now)) nets.now }
    requires driven { AllByRecursion (λ net. is_free netlist.now.gates net ≡ false) nets.now }
    ensures lines { IfOk result (λ lines. AllZip (IsLineBehind netlist.now (stop_at stops.now)) nets.now (map (λ l. l.items) lines.items)) }
    ensures walk { walk.new ≡ walk.old }
{
    let mut lines = Vec::new(alloc);
    'nets: for net in nets {
        let start = gate_start(netlist, *net);
        lines.push(leaves_from(netlist, order, stops, start, walk))?;
    }
    Ok(lines)
}

/// Whether a net is among some.
fn is_among(nets: &[NetId], net: NetId) -> bool
    ensures { result ≡ list_any (nat_eq net) nets.now }
{
    'nets: for other in nets {
        if net.0 == other.0 {
            return true;
        }
    }
    false
}

/// Which flip-flops are self-reading: their q is a leaf of their line.
pub(crate) fn self_reading(
    alloc: Global,
    flops: &[Flop],
    lines: &[ArrayVec<NetId, 16>],
) -> Result<Vec<bool>, AllocError>
    requires { length lines.now ≡ length flops.now }
    ensures { IfOk result (λ reading. reading.items ≡ reading_in flops.now (map (λ l. l.items) lines.now)) }
{
    let mut reading = Vec::new(alloc);
    'flops: for number in 0..flops.len() {
        let flop = &flops[number];
        reading.push(is_among(&lines[number], flop.q))?;
    }
    Ok(reading)
}
