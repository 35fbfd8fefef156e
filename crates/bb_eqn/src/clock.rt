//! One cycle: inputs and flip-flops get their bits, then each gate gives its own.

ghost use Rattle.std.specs.Prelude.{◌≡◌, ◌<◌, ◌≤◌, ℕ, [], length, map, All};
ghost use Rattle.std.specs.List.{AllByRecursion};
ghost use Rattle.bb_base.specs.Net.{driven, times};
ghost use Rattle.bb_base.specs.Order.{IsOrder, drivers};
ghost use Rattle.bb_base.specs.Run.{Meets, Settles, next_states};
ghost use Rattle.bb_eqn.specs.Values.{bits_at};

use crate::gate::write_gate;
use bb_base::{Flop, Gate, NetId, Netlist};
use bb_netlist::Order;

/// Writes the bits of nets.
fn write_nets(nets: &[NetId], bits: &[bool], values: &mut [bool])
    requires bits { length bits.now ≡ length nets.now }
    requires within { All (λ n. n < length values.old) nets.now }
    requires once { (net : ℕ) → times net nets.now ≤ 1 }
    ensures written { map (bits_at values.new) nets.now ≡ bits.now }
    ensures kept { (net : ℕ) → times net nets.now ≡ 0 → bits_at values.new net ≡ bits_at values.old net }
    ensures long { length values.new ≡ length values.old }
{
    'nets: for (place, net) in nets.iter().enumerate() {
        values[net.0 as usize] = bits[place];
    }
}

/// Writes the bits of flip-flops to their q's.
fn write_states(flops: &[Flop], bits: &[bool], values: &mut [bool])
    requires bits { length bits.now ≡ length flops.now }
    requires within { All (λ f. f.q < length values.old) flops.now }
    requires once { (net : ℕ) → times net (map (λ f. f.q) flops.now) ≤ 1 }
    ensures written { map (λ f. bits_at values.new f.q) flops.now ≡ bits.now }
    ensures kept { (net : ℕ) → times net (map (λ f. f.q) flops.now) ≡ 0 → bits_at values.new net ≡ bits_at values.old net }
    ensures long { length values.new ≡ length values.old }
{
    'flops: for (place, flop) in flops.iter().enumerate() {
        values[flop.q.0 as usize] = bits[place];
    }
}

/// Evaluates gates in an order.
fn write_gates(gates: &[Gate], order: &[u32], values: &mut [bool])
    requires order { IsOrder gates.now order.now }
    requires drives { All (λ g. g.out < length values.old) gates.now }
    requires reads { All (λ g. All (λ n. n < length values.old) g.ins) gates.now }
    requires once { (net : ℕ) → times net (map (λ g. g.out) gates.now) ≤ 1 }
    ensures met { AllByRecursion (Meets (bits_at values.new)) gates.now }
    ensures kept { (net : ℕ) → drivers gates.now net ≡ [] → bits_at values.new net ≡ bits_at values.old net }
    ensures long { length values.new ≡ length values.old }
{
    for number in order {
        write_gate(&gates[*number as usize], values);
    }
}

/// Takes the bits of the d's.
fn take_states(flops: &[Flop], values: &[bool], state: &mut [bool])
    requires long { length state.old ≡ length flops.now }
    requires within { All (λ f. f.d < length values.now) flops.now }
    ensures { state.new ≡ map (λ f. bits_at values.now f.d) flops.now }
{
    'flops: for (place, flop) in flops.iter().enumerate() {
        state[place] = values[flop.d.0 as usize];
    }
}

/// Fills the valuation of one cycle: the bits of all nets under these bits of inputs and flip-flops.
pub fn settle(
    netlist: &Netlist,
    order: &Order,
    inputs: &[bool],
    state: &[bool],
    values: &mut [bool],
)
    requires order { IsOrder netlist.now.gates order.now }
    requires inputs { length inputs.now ≡ length netlist.now.inputs }
    requires state { length state.now ≡ length netlist.now.flops }
    requires values { length values.old ≡ length (driven netlist.now) }
    ensures settles { Settles netlist.now inputs.now state.now (bits_at values.new) }
    ensures long { length values.new ≡ length values.old }
{
    write_nets(netlist.inputs(), inputs, values);
    write_states(netlist.flops(), state, values);
    write_gates(netlist.gates(), order.gates(), values);
}

/// The same, and the flip-flops take the bits of their d's.
pub fn cycle(
    netlist: &Netlist,
    order: &Order,
    inputs: &[bool],
    state: &mut [bool],
    values: &mut [bool],
)
    requires order { IsOrder netlist.now.gates order.now }
    requires inputs { length inputs.now ≡ length netlist.now.inputs }
    requires state { length state.old ≡ length netlist.now.flops }
    requires values { length values.old ≡ length (driven netlist.now) }
    ensures settles { Settles netlist.now inputs.now state.old (bits_at values.new) }
    ensures next { state.new ≡ next_states netlist.now (bits_at values.new) }
    ensures long { length values.new ≡ length values.old }
{
    settle(netlist, order, inputs, state, values);
    take_states(netlist.flops(), values, state);
}
