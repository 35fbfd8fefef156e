//! A walk back through gates, net by net, over buffers that are taken once.

ghost use Rattle.std.specs.Prelude.{◌≡◌, ◌<◌, ◌≤◌, ◌^◌, ℕ, true, false, [], ◌∷◌, length, take, Contains, IfOk, slice_get, Some};
ghost use Rattle.bb_base.specs.Net.{driven};
ghost use Rattle.bb_base.specs.Order.{Reads};
ghost use Rattle.bb_terms.specs.Paths.{Start as PlainStart, starts, IsReached};
ghost use Rattle.bb_terms.specs.Support.{stop_at, start_in, StartExists};
ghost use Rattle.bb_segment.specs.Walks.{is_marked_net, IsClear, IsMet, HasMore};

use bb_base::{Driver, NetId, Netlist};
use bb_terms::Start;
use std::alloc::{AllocError, Global};
use std::marker::Model;

/// The buffers of walks over one netlist. No mark stands between two of them.
#[derive(Drop)]
pub struct Walk {
    pub(crate) marks: Vec<bool>,
    pub(crate) met: Vec<NetId>,
}

impl Model for Walk {
    ghost use Rattle.std.specs.Prelude.{ℕ, length};
    ghost use Rattle.bb_segment.specs.Walks.{IsClear};

    ghost Value = { ℕ };

    ghost view = { λ w. length w.marks.items };

    ghost invariant = { λ w. IsClear w.marks.items w.met.items };
}

impl Walk {
    /// Buffers for walks over a netlist.
    pub fn new(alloc: Global, netlist: &Netlist) -> Result<Walk, AllocError>
        ensures { IfOk result (λ walk. walk ≡ length (driven netlist.now)) }
    {
        let nets = netlist.nets() as usize;
        let marks = vec![in alloc; false; nets]?;
        let met = vec![in alloc; NetId(0); nets]?;
        Ok(Walk { marks, met })
    }
}

/// Meets a net, where it was not met before.
fn meet(marks: &mut [bool], met: &mut [NetId], end: usize, net: NetId) -> usize
    requires met { IsMet marks.old met.old end }
    requires within { net < length marks.old }
    ensures long { length marks.new ≡ length marks.old }
    ensures met { IsMet marks.new met.new result }
    ensures front { take end met.new ≡ take end met.old }
    ensures more { end ≤ result }
    ensures has { HasMore (take end met.old) (net ∷ []) (take result met.new) }
{
    let place = net.0 as usize;
    if marks[place] {
        return end;
    }
    marks[place] = true;
    met[end] = net;
    end + 1
}

/// Meets some nets, where they were not met before.
fn meet_all(marks: &mut [bool], met: &mut [NetId], end: usize, nets: &[NetId]) -> usize
    requires met { IsMet marks.old met.old end }
    requires within { (net : ℕ) → Contains nets.now net → net < length marks.old }
    ensures long { length marks.new ≡ length marks.old }
    ensures met { IsMet marks.new met.new result }
    ensures front { take end met.new ≡ take end met.old }
    ensures more { end ≤ result }
    ensures has { HasMore (take end met.old) nets.now (take result met.new) }
{
    let mut end = end;
    'nets: for net in nets {
        end = meet(marks, met, end, *net);
    }
    end
}

/// Meets the nets from which a walk starts.
fn begin(netlist: &Netlist, start: Start, marks: &mut [bool], met: &mut [NetId]) -> usize
    requires clear { IsClear marks.old met.old }
    requires nets { length marks.old ≡ length (driven netlist.now) }
    requires start { StartExists netlist.now start }
    ensures long { length marks.new ≡ length marks.old }
    ensures met { IsMet marks.new met.new result }
    ensures has { (from : PlainStart ℕ) → start_in netlist.now.gates start ≡ Some from → HasMore [] (starts from) (take result met.new) }
{
    match start {
        Start::Net(net) => meet(marks, met, 0, net),
        Start::Gate(number) => {
            let gate = &netlist.gates()[number as usize];
            meet_all(marks, met, 0, &gate.ins)
        }
    }
}

/// What the gate of a net reads, where the net is no stop; else nothing.
fn read_behind<'a>(netlist: &'a Netlist, stops: &[bool], net: NetId) -> &'a [NetId]
    requires few { length (driven netlist.now) < 2 ^ 32 }
    requires stops { length stops.now ≡ length (driven netlist.now) }
    requires within { net < length (driven netlist.now) }
    ensures within { (input : ℕ) → Contains result.now input → input < length (driven netlist.now) }
    ensures each { (input : ℕ) → Contains result.now input → (stop_at stops.now net ≡ false) × Reads netlist.now.gates net input }
    ensures all { (input : ℕ) → stop_at stops.now net ≡ false → Reads netlist.now.gates net input → Contains result.now input }
{
    if stops[net.0 as usize] {
        return &[];
    }
    let Driver::Gate(number) = netlist.driver(net) else {
        return &[];
    };
    let gate = &netlist.gates()[number as usize];
    &gate.ins
}

/// Walks back from the nets met so far, up to stops.
fn follow(
    netlist: &Netlist,
    stops: &[bool],
    marks: &mut [bool],
    met: &mut [NetId],
    end: usize,
) -> usize
    requires met { IsMet marks.old met.old end }
    requires nets { length marks.old ≡ length (driven netlist.now) }
    requires stops { length stops.now ≡ length (driven netlist.now) }
    ensures long { length marks.new ≡ length marks.old }
    ensures met { IsMet marks.new met.new result }
    ensures each { (net : ℕ) → Contains (take result met.new) net → IsReached netlist.now.gates (stop_at stops.now) (take end met.old) net }
    ensures all { (net : ℕ) → IsReached netlist.now.gates (stop_at stops.now) (take end met.old) net → Contains (take result met.new) net }
{
    let mut end = end;
    let mut next = 0usize;
    'places: while next < end {
        let net = met[next];
        let inputs = read_behind(netlist, stops, net);
        end = meet_all(marks, met, end, inputs);
        next += 1;
    }
    end
}

/// Walks back from a start: how many nets were met, which stand in front.
pub(crate) fn fill(
    netlist: &Netlist,
    stops: &[bool],
    start: Start,
    marks: &mut [bool],
    met: &mut [NetId],
) -> usize
    requires clear { IsClear marks.old met.old }
    requires nets { length marks.old ≡ length (driven netlist.now) }
    requires stops { length stops.now ≡ length (driven netlist.now) }
    requires start { StartExists netlist.now start }
    ensures long { length marks.new ≡ length marks.old }
    ensures met { IsMet marks.new met.new result }
    ensures each { (from : PlainStart ℕ) (net : ℕ) → start_in netlist.now.gates start ≡ Some from → Contains (take result met.new) net → IsReached netlist.now.gates (stop_at stops.now) (starts from) net }
    ensures all { (from : PlainStart ℕ) (net : ℕ) → start_in netlist.now.gates start ≡ Some from → IsReached netlist.now.gates (stop_at stops.now) (starts from) net → Contains (take result met.new) net }
{
    let begun = begin(netlist, start, marks, met);
    follow(netlist, stops, marks, met, begun)
}

/// Takes the marks off the nets met.
pub(crate) fn clear(marks: &mut [bool], met: &[NetId])
    requires within { (net : ℕ) → Contains met.now net → net < length marks.old }
    requires marked { (net : ℕ) → is_marked_net marks.old net ≡ true → Contains met.now net }
    ensures long { length marks.new ≡ length marks.old }
    ensures none { (net : ℕ) → is_marked_net marks.new net ≡ false }
{
    'nets: for net in met {
        marks[net.0 as usize] = false;
    }
}
