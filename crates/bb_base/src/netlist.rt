ghost use Rattle.std.specs.Prelude.{◌≡◌, ◌<◌, ◌≤◌, ◌^◌, ℕ, length, IfOk, IfErr, IsErrOf};
ghost use Rattle.bb_base.specs.Firsts.{IsFirst};
ghost use Rattle.bb_base.specs.Net.{driven, times, IsDraft, IsNetlist};
ghost use Rattle.bb_base.specs.Faults.{IsFinishFault};
ghost use Rattle.bb_base.specs.Drivers.{Drives, driven_by, netlist_of};

use crate::drivers::{driven_nets, place_drivers};
use crate::{Flop, Gate, NetFault, NetId};
use std::alloc::Global;
use std::marker::Model;

/// What drives a net, by its place in the list of its kind.
#[derive(Clone, Copy, Debug, PartialEq, Eq)]
pub enum Driver {
    Input(u32),
    Gate(u32),
    Flop(u32),
}

/// A netlist: nets numbered from 0, each with exactly one driver.
#[derive(Drop)]
pub struct Netlist {
    inputs: Vec<NetId>,
    outputs: Vec<NetId>,
    gates: Vec<Gate>,
    flops: Vec<Flop>,
    // For each net the place of its driver, where inputs, gates and flip-flops are counted through.
    places: Vec<u32>,
}

impl Model for Netlist {
    ghost use Rattle.std.specs.Prelude.{ℕ};
    ghost use Rattle.bb_base.specs.Net.{Netlist as NetlistValue};
    ghost use Rattle.bb_base.specs.Drivers.{IsTable};

    ghost Value = { NetlistValue ℕ };

    ghost view = { λ a. record { inputs = a.inputs.items; outputs = a.outputs.items; gates = a.gates.items; flops = a.flops.items } };

    ghost invariant = { λ a. IsTable (record { inputs = a.inputs.items; outputs = a.outputs.items; gates = a.gates.items; flops = a.flops.items }) a.places.items };
}

impl Netlist {
    /// The netlist of so many nets, where each has exactly one driver; else the first net that has two, or else the first that has none.
    pub fn new(
        alloc: Global,
        nets: u32,
        inputs: Vec<NetId>,
        outputs: Vec<NetId>,
        gates: Vec<Gate>,
        flops: Vec<Flop>,
    ) -> Result<Netlist, NetFault>
        requires fits { IsDraft nets (netlist_of inputs.items outputs.items gates.items flops.items) }
        ensures value { IfOk result (λ netlist. netlist ≡ netlist_of inputs.items outputs.items gates.items flops.items) }
        ensures count { IfOk result (λ netlist. length (driven netlist) ≡ nets) }
        ensures netlist { IfOk result IsNetlist }
        ensures two { (net : ℕ) → IsErrOf result (NetFault.TwoDrivers net) → IsFirst (λ m. 2 ≤ times m (driven_by inputs.items gates.items flops.items)) nets net }
        ensures none { (net : ℕ) → IsErrOf result (NetFault.Undriven net) → IsFirst (λ m. times m (driven_by inputs.items gates.items flops.items) ≡ 0) nets net }
        ensures order { (net : ℕ) → IsErrOf result (NetFault.Undriven net) → (m : ℕ) → m < nets → times m (driven_by inputs.items gates.items flops.items) ≤ 1 }
        ensures only { IfErr result IsFinishFault }
    {
        let driven = driven_nets(alloc, &inputs, &gates, &flops)?;
        let places = match place_drivers(alloc, &driven, nets) {
            Ok(places) => places,
            Err(fault) => return Err(fault),
        };
        Ok(Netlist {
            inputs,
            outputs,
            gates,
            flops,
            places,
        })
    }

    /// How many nets there are.
    pub fn nets(&self) -> u32
        ensures count { result ≡ length (driven self.now) }
        ensures netlist { IsNetlist self.now }
    {
        self.places.len() as u32
    }

    /// The inputs in order.
    pub fn inputs(&self) -> &[NetId]
        ensures value { result.now ≡ self.now.inputs }
        ensures netlist { IsNetlist self.now }
    {
        &self.inputs
    }

    /// The outputs in order.
    pub fn outputs(&self) -> &[NetId]
        ensures value { result.now ≡ self.now.outputs }
        ensures netlist { IsNetlist self.now }
    {
        &self.outputs
    }

    /// The gates in order.
    pub fn gates(&self) -> &[Gate]
        ensures value { result.now ≡ self.now.gates }
        ensures netlist { IsNetlist self.now }
    {
        &self.gates
    }

    /// The flip-flops in order.
    pub fn flops(&self) -> &[Flop]
        ensures value { result.now ≡ self.now.flops }
        ensures netlist { IsNetlist self.now }
    {
        &self.flops
    }

    /// What drives a net.
    pub fn driver(&self, net: NetId) -> Driver
        requires { net < length (driven self.now) }
        ensures drives { Drives self.now result net }
        ensures netlist { IsNetlist self.now }
    {
        let place = self.places[net.0 as usize];
        let inputs = self.inputs.len() as u32;
        if place < inputs {
            return Driver::Input(place);
        }
        let gates = self.gates.len() as u32;
        if place - inputs < gates {
            return Driver::Gate(place - inputs);
        }
        Driver::Flop(place - inputs - gates)
    }
}
