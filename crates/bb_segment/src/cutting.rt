//! Cuts by a queue of places in the order: the gate at the first place is settled, or an input of it is cut.
//!
//! Each net has an entry, which is its support once its gate is settled. A gate whose inputs' entries have too many leaves together is the
//! first one that is too wide, since those at earlier places are settled. After a cut only what stands behind it is settled again.

ghost use Rattle.std.specs.Prelude.{◌≡◌, ◌<◌, ◌≤◌, ◌^◌, ◌++◌, ◌∷◌, ◌+◌, ◌*◌, ◌-◌, [], ℕ, true, false, length, slice_set, All, AllPairs, Contains, IfOk, OnOk, Some, None, slice_get, nat_eq, if◌then◌else◌};
ghost use Rattle.std.specs.Set.{distinct_count};
ghost use Rattle.bb_base.specs.Net.{Gate as GateValue, driven};
ghost use Rattle.bb_base.specs.Levels.{AreGates};
ghost use Rattle.bb_base.specs.Order.{IsOrder};
ghost use Rattle.bb_terms.specs.Paths.{is_free};
ghost use Rattle.bb_terms.specs.Support.{stop_at};
ghost use Rattle.bb_segment.specs.Walks.{HasMore};
ghost use Rattle.bb_terms.specs.Cuts.{StandsAt};
ghost use Rattle.bb_segment.specs.Cutting.{table_entry, AreGathered, IsUnion, IsWidest, is_rather, AreReadersAt, IsCutting, weight};

use crate::readers::Readers;
use crate::sets::into_set;
use crate::supports::is_stop;
use arrayvec::ArrayVec;
use bb_base::{Gate, NetId};
use std::alloc::{AllocError, Global};
use std::collections::BTreeSet;
use std::marker::Model;

/// The leaves of a net.
#[derive(Drop)]
pub(crate) struct Leaves {
    nets: ArrayVec<u32, 12>,
}

impl Model for Leaves {
    ghost use Rattle.std.specs.Prelude.{ℕ, List};

    ghost Value = { List ℕ };

    ghost view = { λ l. l.nets.items };
}

impl Leaves {
    fn new() -> Leaves
        ensures { result ≡ [] }
    {
        Leaves {
            nets: ArrayVec::new(),
        }
    }

    /// A net that is its own leaf.
    fn own(net: u32) -> Leaves
        ensures { result ≡ net ∷ [] }
    {
        let mut leaves = Leaves::new();
        leaves.nets.push(net);
        leaves
    }

    fn from_slice(nets: &[u32]) -> Leaves
        requires { length nets.now ≤ 12 }
        ensures { result ≡ nets.now }
    {
        let mut leaves = ArrayVec::new();
        'nets: for net in nets {
            leaves.push(*net);
        }
        Leaves { nets: leaves }
    }

    fn as_slice(&self) -> &[u32]
        ensures { result.now ≡ self.now }
    {
        &self.nets
    }
}

/// The numbers in the entries of some nets.
fn gather(alloc: Global, table: &[Leaves], nets: &[NetId]) -> Result<Vec<u32>, AllocError>
    requires { (net : ℕ) → Contains nets.now net → net < length table.now }
    ensures { IfOk result (λ numbers. AreGathered table.now nets.now numbers.items) }
{
    let mut numbers = Vec::new(alloc);
    'nets: for net in nets {
        numbers.extend_from_slice(table[net.0 as usize].as_slice())?;
    }
    Ok(numbers)
}

/// The union of the entries of some nets.
fn union_of(alloc: Global, table: &[Leaves], nets: &[NetId]) -> Result<Vec<u32>, AllocError>
    requires { (net : ℕ) → Contains nets.now net → net < length table.now }
    ensures { IfOk result (λ union. IsUnion table.now nets.now union.items) }
{
    let numbers = gather(alloc, table, nets)?;
    Ok(into_set(numbers))
}

/// How many leaves a net's entry has.
fn count_at(table: &[Leaves], net: NetId) -> usize
    requires { net < length table.now }
    ensures { result ≡ length (table_entry table.now net) }
{
    table[net.0 as usize].as_slice().len()
}

/// Whether the first of two nets is the one to cut: it has more leaves, or as many and no higher number.
fn is_rather(table: &[Leaves], net: NetId, other: NetId) -> bool
    requires net { net < length table.now }
    requires other { other < length table.now }
    ensures { result ≡ is_rather (length (table_entry table.now net)) net (length (table_entry table.now other)) other }
{
    let count = count_at(table, net);
    let other_count = count_at(table, other);
    count > other_count || count == other_count && net.0 <= other.0
}

/// The one to cut of the best so far and one more net.
fn rather(table: &[Leaves], best: Option<NetId>, net: NetId) -> NetId
    requires net { net < length table.now }
    requires best { (b : ℕ) → best ≡ Some b → b < length table.now }
    ensures none { best ≡ None → result ≡ net }
    ensures some { (b : ℕ) → best ≡ Some b → result ≡ (if is_rather (length (table_entry table.now b)) b (length (table_entry table.now net)) net then b else net) }
{
    match best {
        Some(best) => {
            if is_rather(table, best, net) {
                best
            } else {
                net
            }
        }
        None => net,
    }
}

/// Of some nets that are no stops the one to cut.
fn widest(stops: &[bool], table: &[Leaves], nets: &[NetId]) -> Option<NetId>
    requires within { (net : ℕ) → Contains nets.now net → net < length table.now }
    requires long { length table.now ≡ length stops.now }
    ensures none { result ≡ None → (net : ℕ) → Contains nets.now net → stop_at stops.now net ≡ true }
    ensures some { (net : ℕ) → result ≡ Some net → IsWidest (stop_at stops.now) table.now nets.now net }
{
    let mut best = None;
    'nets: for net in nets {
        if !is_stop(stops, *net) {
            best = Some(rather(table, best, *net));
        }
    }
    best
}

/// Puts places into a queue.
fn queue_all(queue: &mut BTreeSet<u32>, places: &[u32]) -> Result<(), AllocError>
    ensures { OnOk result (HasMore queue.old.keys places.now queue.new.keys) }
{
    'places: for place in places {
        queue.insert(*place)?;
    }
    Ok(())
}

/// How far the cuts have come: which nets are stops, the entry of each net, the places still to be settled, and the cuts in turn.
#[derive(Drop)]
pub(crate) struct Cutting {
    pub(crate) stops: Vec<bool>,
    pub(crate) table: Vec<Leaves>,
    pub(crate) queue: BTreeSet<u32>,
    pub(crate) turns: Vec<u32>,
}

/// Every net is a stop but the gates' outputs.
fn first_stops(alloc: Global, nets: u32, gates: &[Gate]) -> Result<Vec<bool>, AllocError>
    requires { AreGates nets gates.now }
    ensures long { IfOk result (λ stops. length stops.items ≡ nets) }
    ensures free { IfOk result (λ stops. (net : ℕ) → stop_at stops.items net ≡ is_free gates.now net) }
{
    let mut stops = vec![in alloc; true; nets as usize]?;
    'gates: for gate in gates {
        stops[gate.out.0 as usize] = false;
    }
    Ok(stops)
}

/// Every net is its own leaf.
fn first_table(alloc: Global, nets: u32) -> Result<Vec<Leaves>, AllocError>
    ensures long { IfOk result (λ table. length table.items ≡ nets) }
    ensures own { IfOk result (λ table. (net : ℕ) → net < nets → table_entry table.items net ≡ net ∷ []) }
{
    let mut table = Vec::new(alloc);
    'nets: for net in 0..nets {
        table.push(Leaves::own(net))?;
    }
    Ok(table)
}

/// The places below a count.
fn first_queue(alloc: Global, count: u32) -> Result<BTreeSet<u32>, AllocError>
    ensures all { IfOk result (λ queue. (place : ℕ) → place < count → Contains queue.keys place) }
    ensures only { IfOk result (λ queue. (place : ℕ) → Contains queue.keys place → place < count) }
{
    let mut queue = BTreeSet::new(alloc);
    'places: for place in 0..count {
        queue.insert(place)?;
    }
    Ok(queue)
}

/// Nothing is cut yet, and every gate is to be settled.
pub(crate) fn first_state(alloc: Global, nets: u32, gates: &[Gate]) -> Result<Cutting, AllocError>
    requires { AreGates nets gates.now }
    ensures long { IfOk result (λ state. length state.stops.items ≡ nets) }
    ensures cutting { (order : _) (width : ℕ) → IsOrder gates.now order → IfOk result (λ state. IsCutting gates.now order width state.stops.items state.table.items state.queue.keys state.turns.items) }
{
    let stops = first_stops(alloc, nets, gates)?;
    let table = first_table(alloc, nets)?;
    let queue = first_queue(alloc, gates.len() as u32)?;
    Ok(Cutting {
        stops,
        table,
        queue,
        turns: Vec::new(alloc),
    })
}

/// Cuts a net: it is a stop from then on, and what reads it is to be settled again.
fn cut(state: &mut Cutting, readers: &[Readers], net: NetId) -> Result<(), AllocError>
    requires stops { net < length state.old.stops.items }
    requires table { net < length state.old.table.items }
    requires readers { net < length readers.now }
    ensures stops { OnOk result (state.new.stops.items ≡ slice_set state.old.stops.items net true) }
    ensures table { OnOk result (state.new.table.items ≡ slice_set state.old.table.items net (net ∷ [])) }
    ensures turns { OnOk result (state.new.turns.items ≡ state.old.turns.items ++ net ∷ []) }
    ensures queue { OnOk result (HasMore state.old.queue.keys (table_entry readers.now net) state.new.queue.keys) }
{
    let place = net.0 as usize;
    state.stops[place] = true;
    state.table[place] = Leaves::own(net.0);
    state.turns.push(net.0)?;
    queue_all(&mut state.queue, readers[place].as_slice())
}

/// Writes a net's entry, and has what reads it settled again.
fn write(
    state: &mut Cutting,
    readers: &[Readers],
    net: NetId,
    leaves: &[u32],
) -> Result<(), AllocError>
    requires table { net < length state.old.table.items }
    requires readers { net < length readers.now }
    requires few { length leaves.now ≤ 12 }
    ensures stops { OnOk result (state.new.stops.items ≡ state.old.stops.items) }
    ensures table { OnOk result (state.new.table.items ≡ slice_set state.old.table.items net leaves.now) }
    ensures turns { OnOk result (state.new.turns.items ≡ state.old.turns.items) }
    ensures queue { OnOk result (HasMore state.old.queue.keys (table_entry readers.now net) state.new.queue.keys) }
{
    let place = net.0 as usize;
    state.table[place] = Leaves::from_slice(leaves);
    queue_all(&mut state.queue, readers[place].as_slice())
}

/// Whether a net is a stop, or has these leaves for its entry.
fn is_settled(state: &Cutting, net: NetId, leaves: &[u32]) -> bool
    requires stops { net < length state.now.stops.items }
    requires table { net < length state.now.table.items }
    ensures yes { result ≡ true → stop_at state.now.stops.items net ≡ false → table_entry state.now.table.items net ≡ leaves.now }
    ensures no { result ≡ false → stop_at state.now.stops.items net ≡ false }
{
    let place = net.0 as usize;
    if state.stops[place] {
        return true;
    }
    state.table[place].as_slice() == leaves
}

/// The gate at a place of the order.
fn gate_at<'a>(gates: &'a [Gate], order: &[u32], place: u32) -> &'a Gate
    requires order { IsOrder gates.now order.now }
    requires place { place < length order.now }
    ensures { StandsAt gates.now order.now place result.now }
{
    &gates[order[place as usize] as usize]
}

/// Settles the gate at a place, or cuts an input of it.
fn step(
    alloc: Global,
    gates: &[Gate],
    order: &[u32],
    width: u32,
    readers: &[Readers],
    state: &mut Cutting,
    place: u32,
) -> Result<(), AllocError>
    requires gates { AreGates (length state.old.stops.items) gates.now }
    requires order { IsOrder gates.now order.now }
    requires width { width ≤ 12 }
    requires narrow { (h : ℕ) (g : GateValue ℕ) → slice_get gates.now h ≡ Some g → distinct_count nat_eq g.ins ≤ width }
    requires long { length readers.now ≡ length state.old.stops.items }
    requires readers { AreReadersAt gates.now order.now (length order.now) readers.now }
    requires later { (q : ℕ) → Contains state.old.queue.keys q → place < q }
    requires cutting { IsCutting gates.now order.now width state.old.stops.items state.old.table.items (place ∷ state.old.queue.keys) state.old.turns.items }
    ensures long { OnOk result (length state.new.stops.items ≡ length state.old.stops.items) }
    ensures cutting { OnOk result (IsCutting gates.now order.now width state.new.stops.items state.new.table.items state.new.queue.keys state.new.turns.items) }
    ensures falls { OnOk result (weight (length order.now) state.new.stops.items state.new.queue.keys < weight (length order.now) state.old.stops.items (place ∷ state.old.queue.keys)) }
{
    let gate = gate_at(gates, order, place);
    let union = union_of(alloc, &state.table, &gate.ins)?;
    if union.len() > width as usize {
        let Some(net) = widest(&state.stops, &state.table, &gate.ins) else {
            unreachable!()
        };
        return cut(state, readers, net);
    }
    if is_settled(state, gate.out, &union) {
        return Ok(());
    }
    write(state, readers, gate.out, &union)
}

/// Settles gates and cuts until no place is left.
pub(crate) fn run(
    alloc: Global,
    gates: &[Gate],
    order: &[u32],
    width: u32,
    readers: &[Readers],
    state: &mut Cutting,
) -> Result<(), AllocError>
    requires gates { AreGates (length state.old.stops.items) gates.now }
    requires order { IsOrder gates.now order.now }
    requires width { width ≤ 12 }
    requires narrow { (h : ℕ) (g : GateValue ℕ) → slice_get gates.now h ≡ Some g → distinct_count nat_eq g.ins ≤ width }
    requires long { length readers.now ≡ length state.old.stops.items }
    requires readers { AreReadersAt gates.now order.now (length order.now) readers.now }
    requires cutting { IsCutting gates.now order.now width state.old.stops.items state.old.table.items state.old.queue.keys state.old.turns.items }
    ensures long { OnOk result (length state.new.stops.items ≡ length state.old.stops.items) }
    ensures cutting { OnOk result (IsCutting gates.now order.now width state.new.stops.items state.new.table.items [] state.new.turns.items) }
{
    'places: while let Some(place) = state.queue.pop_first() {
        step(alloc, gates, order, width, readers, state, place)?;
    }
    Ok(())
}
