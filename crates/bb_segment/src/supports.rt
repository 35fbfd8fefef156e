//! Supports: the leaves of a line, in ascending order.

ghost use Rattle.std.specs.Prelude.{◌≡◌, ◌≢◌, ◌<◌, ◌≤◌, ◌^◌, ℕ, List, length, Contains, AllPairs, IfOk, IfErr, count_by, filter};
ghost use Rattle.std.specs.List.Sorted.{IsPermutation, IsSorted};
ghost use Rattle.std.specs.Ordering.{nat_cmp};
ghost use Rattle.bb_base.specs.Net.{driven};
ghost use Rattle.bb_terms.specs.Support.{stop_at, HasLeaves, StartExists};
ghost use Rattle.bb_segment.specs.Among.{AreStops};
ghost use Rattle.bb_segment.specs.Walks.{IsClear};

use crate::Walk;
use crate::walk::{clear, fill};
use arrayvec::ArrayVec;
use bb_base::{NetId, Netlist};
use bb_netlist::Order;
use bb_terms::Start;

/// More than 16 leaves: how many there are.
#[derive(Clone, Copy, Debug, PartialEq, Eq)]
pub struct Wide {
    pub count: u32,
}

/// Whether a net is a stop.
pub fn is_stop(stops: &[bool], net: NetId) -> bool
    requires { net < length stops.now }
    ensures { result ≡ stop_at stops.now net }
{
    stops[net.0 as usize]
}

/// How many of some nets are stops.
fn count_stops(stops: &[bool], nets: &[NetId]) -> usize
    requires { (net : ℕ) → Contains nets.now net → net < length stops.now }
    ensures { result ≡ count_by (stop_at stops.now) nets.now }
{
    let mut count = 0usize;
    'nets: for net in nets {
        if is_stop(stops, *net) {
            count += 1;
        }
    }
    count
}

/// The numbers of the stops among some nets, where there are few.
fn stops_among(stops: &[bool], nets: &[NetId]) -> ArrayVec<u32, 16>
    requires within { (net : ℕ) → Contains nets.now net → net < length stops.now }
    requires few { count_by (stop_at stops.now) nets.now ≤ 16 }
    ensures { result.items ≡ filter (stop_at stops.now) nets.now }
{
    let mut among = ArrayVec::new();
    'nets: for net in nets {
        if is_stop(stops, *net) {
            among.push(net.0);
        }
    }
    among
}

/// The nets of some numbers.
fn nets_of(numbers: &[u32]) -> ArrayVec<NetId, 16>
    requires { length numbers.now ≤ 16 }
    ensures { result.items ≡ numbers.now }
{
    let mut nets = ArrayVec::new();
    'numbers: for number in numbers {
        nets.push(NetId(*number));
    }
    nets
}

/// The nets of some numbers in ascending order.
fn ascending_nets(numbers: &mut [u32]) -> ArrayVec<NetId, 16>
    requires { length numbers.old ≤ 16 }
    ensures moved { IsPermutation numbers.old result.items }
    ensures sorted { IsSorted nat_cmp result.items }
{
    numbers.sort_unstable();
    nets_of(numbers)
}

/// The stops among some nets in ascending order, or how many there are where these are more than 16.
fn leaves_among(stops: &[bool], nets: &[NetId]) -> Result<ArrayVec<NetId, 16>, Wide>
    requires within { (net : ℕ) → Contains nets.now net → net < length stops.now }
    requires few { length nets.now < 2 ^ 32 }
    requires apart { AllPairs (λ a b. a ≢ b) nets.now }
    ensures are { IfOk result (λ leaves. AreStops (stop_at stops.now) nets.now leaves.items) }
    ensures few { IfOk result (λ leaves. length leaves.items ≤ 16) }
    ensures wide { IfErr result (λ wide. (all : List ℕ) × AreStops (stop_at stops.now) nets.now all × (length all ≡ wide.count) × (16 < wide.count)) }
{
    let count = count_stops(stops, nets);
    if count > 16 {
        return Err(Wide {
            count: count as u32,
        });
    }
    let mut among = stops_among(stops, nets);
    Ok(ascending_nets(&mut among))
}

/// The leaves of a start, or how many there are where these are more than 16. The marks are taken off again.
fn walk_leaves(
    netlist: &Netlist,
    stops: &[bool],
    start: Start,
    marks: &mut [bool],
    met: &mut [NetId],
) -> Result<ArrayVec<NetId, 16>, Wide>
    requires clear { IsClear marks.old met.old }
    requires nets { length marks.old ≡ length (driven netlist.now) }
    requires stops { length stops.now ≡ length (driven netlist.now) }
    requires start { StartExists netlist.now start }
    ensures leaves { IfOk result (λ leaves. HasLeaves netlist.now.gates stops.now start leaves.items) }
    ensures few { IfOk result (λ leaves. length leaves.items ≤ 16) }
    ensures wide { IfErr result (λ wide. (all : List ℕ) × HasLeaves netlist.now.gates stops.now start all × (length all ≡ wide.count) × (16 < wide.count)) }
    ensures long { length marks.new ≡ length marks.old }
    ensures clear { IsClear marks.new met.new }
{
    let end = fill(netlist, stops, start, marks, met);
    let met = &met[..end];
    let result = leaves_among(stops, met);
    clear(marks, met);
    result
}

/// The leaves of a start by ascending number, or how many there are where these are more than 16.
///
/// It takes no memory, and its time is that of the nets that the walk meets and of what their gates read. Which order the gates have
/// doesn't matter to it.
pub fn support(
    netlist: &Netlist,
    _order: &Order,
    stops: &[bool],
    start: Start,
    walk: &mut Walk,
) -> Result<ArrayVec<NetId, 16>, Wide>
    requires stops { length stops.now ≡ length (driven netlist.now) }
    requires start { StartExists netlist.now start }
    requires walk { walk.old ≡ length (driven netlist.now) }
    ensures leaves { IfOk result (λ leaves. HasLeaves netlist.now.gates stops.now start leaves.items) }
    ensures few { IfOk result (λ leaves. length leaves.items ≤ 16) }
    ensures wide { IfErr result (λ wide. (all : List ℕ) × HasLeaves netlist.now.gates stops.now start all × (length all ≡ wide.count) × (16 < wide.count)) }
    ensures walk { walk.new ≡ walk.old }
{
    walk_leaves(netlist, stops, start, &mut walk.marks, &mut walk.met)
}
