//! The order of gates, by levels (a gate's level is the greatest number of gates on a way back from its inputs).
//!
//! Levels are found by a worklist: a gate is taken once all of its inputs have their depth (Kahn, 1962).

ghost use Rattle.std.specs.Prelude.{◌≡◌, ◌≢◌, ◌<◌, ◌^◌, ℕ, length, map, All, Some, None, slice_get, slice_index, IfOk, IsErrOf};
ghost use Rattle.bb_base.specs.Net.{Gate as GateValue, driven};
ghost use Rattle.bb_base.specs.Firsts.{IsFirst};
ghost use Rattle.bb_base.specs.Order.{IsOrder, IsFirstStuck, IsLoop, IsCycle};
ghost use Rattle.bb_base.specs.Levels.{depth_in, open_count, AreGates, AreDepths, IsFirstOpen, key_at, number_in};

use crate::levels::depths_of;
use bb_base::{Driver, Gate, NetId, Netlist};
use std::alloc::{AllocError, Global};
use std::marker::Model;

/// All gates of a netlist, each after those that drive its inputs.
#[derive(Drop)]
pub struct Order {
    gates: Vec<u32>,
}

impl Model for Order {
    ghost use Rattle.std.specs.Prelude.{ℕ, List};

    ghost Value = { List ℕ };

    ghost view = { λ o. o.gates.items };
}

impl Order {
    /// The gates' numbers by level, then by number.
    pub fn gates(&self) -> &[u32]
        ensures { result.now ≡ self.now }
    {
        &self.gates
    }
}

/// Why a netlist's gates have no order.
#[derive(Drop)]
pub enum OrderFault {
    /// Gates form a cycle; the nets on it, each driven by a gate that reads the next.
    Loop { nets: Vec<NetId> },
    NoMemory,
}

impl From<AllocError> for OrderFault {
    ghost use Rattle.std.specs.Prelude.{◌≡◌};
    ghost use Rattle.bb_netlist.specs.declared.order.OrderFault.TheVariants.{NoMemory};

    ghost from_gives = { λ _ e. e ≡ NoMemory };

    fn from(_: AllocError) -> Self {
        OrderFault::NoMemory
    }
}

/// A gate's level and its number in one key, the level first. The depth of its output stands for the level.
fn key_of(depths: &[Option<u32>], number: u32, gate: &Gate) -> u64
    requires { gate.now.out < length depths.now }
    ensures { result ≡ key_at (depth_in depths.now gate.now.out) number }
{
    u64::from(depths[gate.out.0 as usize].unwrap_or(0)) * (1 << 32) + u64::from(number)
}

/// The keys of all gates.
fn keys_of(alloc: Global, depths: &[Option<u32>], gates: &[Gate]) -> Result<Vec<u64>, AllocError>
    requires fit { AreGates (length depths.now) gates.now }
    ensures long { IfOk result (λ keys. length keys.items ≡ length gates.now) }
    ensures each { IfOk result (λ keys. (h : ℕ) (g : GateValue ℕ) → slice_get gates.now h ≡ Some g → slice_index keys.items h ≡ key_at (depth_in depths.now g.out) h) }
{
    let mut keys = Vec::new(alloc);
    'gates: for (number, gate) in gates.iter().enumerate() {
        keys.push(key_of(depths, number as u32, gate))?;
    }
    Ok(keys)
}

/// The numbers in keys.
fn numbers_of(alloc: Global, keys: &[u64]) -> Result<Vec<u32>, AllocError>
    ensures { IfOk result (λ numbers. numbers.items ≡ map number_in keys.now) }
{
    let mut numbers = Vec::new(alloc);
    'keys: for key in keys {
        numbers.push((*key % (1 << 32)) as u32)?;
    }
    Ok(numbers)
}

/// The gates by their keys.
fn sort_gates(alloc: Global, depths: &[Option<u32>], gates: &[Gate]) -> Result<Order, AllocError>
    requires fit { AreGates (length depths.now) gates.now }
    requires by_depth { AreDepths (length depths.now) gates.now (depth_in depths.now) }
    requires all { (n : ℕ) → n < length depths.now → depth_in depths.now n ≢ None }
    ensures { IfOk result (λ order. IsOrder gates.now order) }
{
    let mut keys = keys_of(alloc, depths, gates)?;
    keys.sort_unstable();
    let gates = numbers_of(alloc, &keys)?;
    Ok(Order { gates })
}

/// The first net without a depth.
fn first_open(depths: &[Option<u32>]) -> Option<NetId>
    requires { length depths.now < 2 ^ 32 }
    ensures none { result ≡ None → (n : ℕ) → n < length depths.now → depth_in depths.now n ≢ None }
    ensures first { (n : ℕ) → result ≡ Some n → IsFirst (λ m. depth_in depths.now m ≡ None) (length depths.now) n }
{
    'nets: for (net, depth) in depths.iter().enumerate() {
        if depth.is_none() {
            return Some(NetId(net as u32));
        }
    }
    None
}

/// The first of some nets that has no depth.
fn first_open_of(depths: &[Option<u32>], nets: &[NetId]) -> Option<NetId>
    requires { All (λ n. n < length depths.now) nets.now }
    ensures none { result ≡ None → open_count (depth_in depths.now) nets.now ≡ 0 }
    ensures first { (n : ℕ) → result ≡ Some n → IsFirstOpen (depth_in depths.now) nets.now n }
{
    'nets: for net in nets {
        if depths[net.0 as usize].is_none() {
            return Some(*net);
        }
    }
    None
}

/// From a net without a depth back to the first input of its gate that has none.
fn step_back(netlist: &Netlist, depths: &[Option<u32>], net: NetId) -> NetId
    requires long { length depths.now ≡ length (driven netlist.now) }
    requires fit { AreGates (length depths.now) netlist.now.gates }
    requires by_depth { AreDepths (length depths.now) netlist.now.gates (depth_in depths.now) }
    requires within { net < length depths.now }
    requires no_depth { depth_in depths.now net ≡ None }
    ensures within { result < length depths.now }
    ensures no_depth { depth_in depths.now result ≡ None }
    ensures first { IsFirstStuck netlist.now.gates net result }
{
    let Driver::Gate(number) = netlist.driver(net) else {
        return net;
    };
    let gate = &netlist.gates()[number as usize];
    first_open_of(depths, &gate.ins).unwrap_or(net)
}

/// The walk back from a net without a depth to the first net met twice, from its first visit on.
fn walk_back(
    alloc: Global,
    netlist: &Netlist,
    depths: &[Option<u32>],
    start: NetId,
) -> Result<Vec<NetId>, AllocError>
    requires few { length depths.now < 2 ^ 32 }
    requires long { length depths.now ≡ length (driven netlist.now) }
    requires fit { AreGates (length depths.now) netlist.now.gates }
    requires by_depth { AreDepths (length depths.now) netlist.now.gates (depth_in depths.now) }
    requires first { IsFirst (λ m. depth_in depths.now m ≡ None) (length depths.now) start }
    ensures { IfOk result (λ nets. IsLoop netlist.now.gates nets.items) }
{
    let mut places = vec![in alloc; None::<u32>; depths.len()]?;
    let mut walk = Vec::new(alloc);
    let mut net = start;
    'steps: loop {
        if let Some(place) = places[net.0 as usize] {
            let nets = walk.split_off(place as usize)?;
            return Ok(nets);
        }
        places[net.0 as usize] = Some(walk.len() as u32);
        walk.push(net)?;
        net = step_back(netlist, depths, net);
    }
}

/// The order of a netlist's gates, or the loop that leaves some of them without a level.
pub fn find_order(alloc: Global, netlist: &Netlist) -> Result<Order, OrderFault>
    ensures order { IfOk result (λ order. IsOrder netlist.now.gates order) }
    ensures is_loop { (nets : _) → IsErrOf result (OrderFault.Loop nets) → IsLoop netlist.now.gates nets.items }
    ensures is_cycle { (nets : _) → IsErrOf result (OrderFault.Loop nets) → IsCycle netlist.now.gates nets.items }
{
    let depths = depths_of(alloc, netlist.nets(), netlist.gates())?;
    match first_open(&depths) {
        Some(start) => Err(OrderFault::Loop {
            nets: walk_back(alloc, netlist, &depths, start)?,
        }),
        None => Ok(sort_gates(alloc, &depths, netlist.gates())?),
    }
}
