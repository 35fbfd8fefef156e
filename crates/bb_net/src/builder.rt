ghost use Rattle.std.specs.Prelude.{◌≡◌, ◌≢◌, ◌↔◌, ◌<◌, ◌≤◌, ◌+◌, ◌-◌, ◌^◌, ◌++◌, ◌∷◌, [], ℕ, length, map, take, All, IfOk, OnOk, OnErr, IfErr, IsErrOf, IfSome, IsSome, None, Some, slice_get, true, IsTrue, if◌then◌else◌};
ghost use Rattle.std.specs.Option.{ForSome};
ghost use Rattle.std.specs.List.{range_with_len};
ghost use Rattle.bb_base.specs.Net.{driven, times};
ghost use Rattle.bb_base.specs.Operators.{IsArity};
ghost use Rattle.bb_base.specs.Variables.{IsBit, IsRange, range_width, is_input, is_output, is_port, bit_at, places_but};
ghost use Rattle.bb_base.specs.Named.{lookup_of, IsNamed, IsConsistent};
ghost use Rattle.bb_base.specs.Faults.{IsGateFault, IsVariableFault, IsNetCallFault, IsFinishFault};
ghost use Rattle.bb_base.specs.Building.{started, net_limit, port_bits, new_nets, with_variable, MayClock, with_net, with_gate, with_flop, clock_with, IsTooMany, IsEarlier};
ghost use Rattle.bb_base.specs.Firsts.{IsFirst};

use crate::Named;
use bb_base::{
    BitName, Flop, Gate, Name, NetFault, NetId, Netlist, Op, Role, Variable, has_arity,
    is_port_role, width_of,
};
use indexmap::{IndexMap, IndexSet};
use smallvec::SmallVec;
use std::alloc::{AllocError, Global};
use std::marker::Model;

/// The most nets that a builder makes.
const NET_LIMIT: u64 = 134_217_728;

/// A named netlist that is being built: variables first, then nets, gates and flip-flops in any order.
#[derive(Drop)]
pub struct Builder {
    alloc: Global,
    module: Name,
    variables: IndexMap<Name, Variable>,
    ports: u32,
    clock: Option<BitName>,
    names: IndexSet<BitName>,
    inputs: Vec<NetId>,
    outputs: Vec<NetId>,
    gates: Vec<Gate>,
    flops: Vec<Flop>,
}

impl Model for Builder {
    ghost use Rattle.std.specs.Prelude.{◌≡◌, ◌<◌, ◌≤◌, ◌^◌, length};
    ghost use Rattle.bb_base.specs.Named.{Named as NamedValue, IsConsistent};
    ghost use Rattle.bb_base.specs.Building.{net_limit};
    ghost use Rattle.bb_base.specs.Variables.{ports_of};

    ghost Value = { NamedValue };

    ghost view = { λ b. record { module_name = b.module; variables = b.variables.entries; clock = b.clock; names = b.names.keys; netlist = record { inputs = b.inputs.items; outputs = b.outputs.items; gates = b.gates.items; flops = b.flops.items } } };

    ghost invariant = { λ b. IsConsistent (record { module_name = b.module; variables = b.variables.entries; clock = b.clock; names = b.names.keys; netlist = record { inputs = b.inputs.items; outputs = b.outputs.items; gates = b.gates.items; flops = b.flops.items } })
        × (length b.variables.entries < 2 ^ 32) × (length b.names.keys ≤ net_limit) × (b.ports ≡ ports_of b.variables.entries) };
}

impl Builder {
    /// A builder of a module with this name, without variables and nets.
    pub fn new(alloc: Global, name: Name) -> Result<Builder, AllocError>
        ensures { IfOk result (λ builder. builder ≡ started name) }
    {
        // `bytes` ensures that the name is one.
        let _valid = name.bytes();
        Ok(Builder {
            alloc,
            module: name,
            variables: IndexMap::new(alloc),
            ports: 0,
            clock: None,
            names: IndexSet::new(alloc),
            inputs: Vec::new(alloc),
            outputs: Vec::new(alloc),
            gates: Vec::new(alloc),
            flops: Vec::new(alloc),
        })
    }

    /// The number of the variable with this name.
    pub fn lookup(&self, name: &Name) -> Option<u32>
        ensures { result ≡ lookup_of name.now self.now }
    {
        match self.variables.get_index_of(name) {
            Some(index) => Some(index as u32),
            None => None,
        }
    }

    /// Adds a variable, and answers its number. The bits of a port but the clock's get the next net numbers, from left to right.
    ///
    /// `clock` is the place of the clock's bit, where it is one of this variable.
    pub fn variable(
        &mut self,
        name: Name,
        range: Option<(u32, u32)>,
        role: Role,
        clock: Option<u32>,
    ) -> Result<u32, NetFault>
        requires few { length self.old.variables < 2 ^ 32 - 1 }
        requires range { IsRange range }
        requires ports_first { is_port role ≡ true → All (λ v. is_port v.1.role ≡ true) self.old.variables }
        requires clock { ForSome clock (MayClock self.old (record { range = range; role = role })) }
        ensures ok { OnOk result (self.new ≡ with_variable self.old name (record { range = range; role = role }) clock) }
        ensures number { IfOk result (λ number. number ≡ length self.old.variables) }
        ensures redeclared { (number : _) → IsErrOf result (NetFault.Redeclared number) ↔ (lookup_of name self.old ≡ Some number) }
        ensures many { (count limit : _) → IsErrOf result (NetFault.TooMany count limit) ↔ IsTooMany self.old name (record { range = range; role = role }) clock count limit }
        ensures only { IfErr result IsVariableFault }
        ensures err { OnErr result (self.new ≡ self.old) }
    {
        if let Some(index) = self.variables.get_index_of(&name) {
            return Err(NetFault::Redeclared {
                variable: index as u32,
            });
        }
        // `bytes` ensures that the name is one.
        let _valid = name.bytes();
        let number = self.variables.len() as u32;
        let nets = self.names.len();
        let count = nets as u64 + net_count(role, range, clock) as u64;
        if count > NET_LIMIT {
            return Err(NetFault::TooMany {
                count,
                limit: NET_LIMIT,
            });
        }
        let inputs = self.inputs.len();
        let outputs = self.outputs.len();
        match add_bits(
            &mut self.names,
            &mut self.inputs,
            &mut self.outputs,
            number,
            Variable { range, role },
            clock,
        ) {
            Ok(()) => {}
            Err(AllocError) => {
                self.names.truncate(nets);
                self.inputs.truncate(inputs);
                self.outputs.truncate(outputs);
                return Err(NetFault::NoMemory);
            }
        }
        match self.variables.insert(name, Variable { range, role }) {
            Ok(_) => {}
            Err(_) => {
                self.names.truncate(nets);
                self.inputs.truncate(inputs);
                self.outputs.truncate(outputs);
                return Err(NetFault::NoMemory);
            }
        }
        self.ports += port_count(role);
        self.clock = clock_after(self.clock, number, clock);
        Ok(number)
    }

    /// Adds a gate.
    pub fn gate(&mut self, op: Op, out: NetId, ins: &[NetId]) -> Result<(), NetFault>
        requires out { out < length self.old.names }
        requires ins { All (λ net. net < length self.old.names) ins.now }
        requires few { length self.old.netlist.gates < 2 ^ 32 - 1 }
        ensures ok { OnOk result (self.new ≡ with_gate self.old op out ins.now) }
        ensures arity { (gate : _) → IsErrOf result (NetFault.BadArity gate) ↔ ((gate ≡ length self.old.netlist.gates) × (IsArity op (length ins.now) → ⊥)) }
        ensures only { IfErr result IsGateFault }
        ensures err { OnErr result (self.new ≡ self.old) }
    {
        if !has_arity(op, ins.len()) {
            return Err(NetFault::BadArity {
                gate: self.gates.len() as u32,
            });
        }
        let ins = SmallVec::from_slice(self.alloc, ins)?;
        self.gates.push(Gate { op, out, ins })?;
        Ok(())
    }

    /// Adds a flip-flop.
    pub fn flop(&mut self, q: NetId, d: NetId) -> Result<(), AllocError>
        requires q { q < length self.old.names }
        requires d { d < length self.old.names }
        requires few { length self.old.netlist.flops < 2 ^ 32 - 1 }
        ensures ok { OnOk result (self.new ≡ with_flop self.old q d) }
        ensures err { OnErr result (self.new ≡ self.old) }
    {
        self.flops.push(Flop { q, d })?;
        Ok(())
    }

    /// The net of a bit, which is made with the next number where there is none.
    pub fn net(&mut self, variable: u32, place: u32) -> Result<NetId, NetFault>
        requires bit { IsBit self.old.variables (bit_at variable place) }
        requires no_clock { ForSome self.old.clock (λ c. bit_at variable place ≢ c) }
        ensures ok { OnOk result (self.new ≡ with_net self.old (bit_at variable place)) }
        ensures found { IfOk result (λ net. slice_get self.new.names net ≡ Some (bit_at variable place)) }
        ensures many { (count limit : _) → IsErrOf result (NetFault.TooMany count limit)
            ↔ ((length (with_net self.old (bit_at variable place)).names ≡ net_limit + 1) × (count ≡ net_limit + 1) × (limit ≡ net_limit)) }
        ensures only { IfErr result IsNetCallFault }
        ensures err { OnErr result (self.new ≡ self.old) }
    {
        let bit = BitName { variable, place };
        if let Some(index) = self.names.get_index_of(&bit) {
            return Ok(NetId(index as u32));
        }
        let count = self.names.len() as u64;
        if count >= NET_LIMIT {
            return Err(NetFault::TooMany {
                count: count + 1,
                limit: NET_LIMIT,
            });
        }
        let (index, _) = self.names.insert_full(bit)?;
        Ok(NetId(index as u32))
    }

    /// The netlist, where each net has exactly one driver.
    ///
    /// Inputs and outputs are the port bits in order.
    pub fn finish(self) -> Result<Named, NetFault>
        requires clock { IsSome self.clock ↔ (0 < length self.netlist.flops) }
        ensures named { IfOk result (λ named. named ≡ self) }
        ensures valid { OnOk result (IsNamed self) }
        ensures two { (net : ℕ) → IsErrOf result (NetFault.TwoDrivers net) → IsFirst (λ m. 2 ≤ times m (driven self.netlist)) (length self.names) net }
        ensures none { (net : ℕ) → IsErrOf result (NetFault.Undriven net) → IsFirst (λ m. times m (driven self.netlist) ≡ 0) (length self.names) net }
        ensures order { (net : ℕ) → IsErrOf result (NetFault.Undriven net) → (m : ℕ) → m < length self.names → times m (driven self.netlist) ≤ 1 }
        ensures fits { IsConsistent self }
        ensures only { IfErr result IsFinishFault }
    {
        let Builder {
            alloc,
            module,
            variables,
            ports,
            clock,
            names,
            inputs,
            outputs,
            gates,
            flops,
        } = self;
        // `len` ensures that no two names are alike.
        let _variables = variables.len();
        let nets = names.len() as u32;
        let netlist = match Netlist::new(alloc, nets, inputs, outputs, gates, flops) {
            Ok(netlist) => netlist,
            Err(fault) => return Err(fault),
        };
        Ok(Named {
            module,
            variables,
            ports,
            clock,
            names,
            netlist,
        })
    }
}

/// How many ports a variable of this role is.
fn port_count(role: Role) -> u32
    ensures { result ≡ (if is_port role then 1 else 0) }
{
    match role {
        Role::Input | Role::Output => 1,
        Role::Wire => 0,
    }
}

/// The clock's bit, once a variable was added.
fn clock_after(clock: Option<BitName>, variable: u32, place: Option<u32>) -> Option<BitName>
    ensures { result ≡ clock_with clock variable place }
{
    match place {
        Some(place) => Some(BitName { variable, place }),
        None => clock,
    }
}

/// How many bits of such a variable become nets at once: those of a port, but the clock.
fn net_count(role: Role, range: Option<(u32, u32)>, clock: Option<u32>) -> u32
    requires range { IsRange range }
    requires clock { ForSome clock (λ place. place < range_width range) }
    ensures { (number : ℕ) → result ≡ length (port_bits number (record { range = range; role = role }) clock) }
{
    if !is_port_role(role) {
        return 0;
    }
    match clock {
        None => width_of(range),
        Some(_) => width_of(range) - 1,
    }
}

/// Adds the bits of these places of a variable. After an error some of them may stand behind the names so far.
fn add_places(
    names: &mut IndexSet<BitName>,
    variable: u32,
    first: u32,
    end: u32,
) -> Result<(), AllocError>
    requires order { first ≤ end }
    requires fresh { All (IsEarlier variable first) names.old.keys }
    ensures ok { OnOk result (names.new.keys ≡ names.old.keys ++ map (bit_at variable) (range_with_len first (end - first))) }
    ensures err { OnErr result (take (length names.old.keys) names.new.keys ≡ names.old.keys) }
{
    for place in first..end {
        names.insert(BitName { variable, place })?;
    }
    Ok(())
}

/// Adds the nets from one number up to another. After an error some of them may stand behind the nets so far.
fn add_nets(nets: &mut Vec<NetId>, first: u32, end: u32) -> Result<(), AllocError>
    requires order { first ≤ end }
    ensures ok { OnOk result (nets.new.items ≡ nets.old.items ++ range_with_len first (end - first)) }
    ensures err { OnErr result (take (length nets.old.items) nets.new.items ≡ nets.old.items) }
{
    for net in first..end {
        nets.push(NetId(net))?;
    }
    Ok(())
}

/// Adds the bits of a variable to the names, and their nets to the ports. After an error some of them may stand behind those before.
fn add_bits(
    names: &mut IndexSet<BitName>,
    inputs: &mut Vec<NetId>,
    outputs: &mut Vec<NetId>,
    number: u32,
    variable: Variable,
    clock: Option<u32>,
) -> Result<(), AllocError>
    requires range { IsRange variable.range }
    requires clock { ForSome clock (λ place. place < range_width variable.range) }
    requires fresh { All (λ bit. bit.variable < number) names.old.keys }
    requires few { length names.old.keys + length (port_bits number variable clock) ≤ net_limit }
    ensures names { OnOk result (names.new.keys ≡ names.old.keys ++ port_bits number variable clock) }
    ensures inputs { OnOk result (inputs.new.items ≡ inputs.old.items ++ new_nets (is_input variable.role) (length names.old.keys) (length (port_bits number variable clock))) }
    ensures outputs { OnOk result (outputs.new.items ≡ outputs.old.items ++ new_nets (is_output variable.role) (length names.old.keys) (length (port_bits number variable clock))) }
    ensures err_names { OnErr result (take (length names.old.keys) names.new.keys ≡ names.old.keys) }
    ensures err_inputs { OnErr result (take (length inputs.old.items) inputs.new.items ≡ inputs.old.items) }
    ensures err_outputs { OnErr result (take (length outputs.old.items) outputs.new.items ≡ outputs.old.items) }
{
    let first = names.len() as u32;
    match variable.role {
        Role::Wire => Ok(()),
        Role::Input => {
            add_places_but(names, number, variable.range, clock)?;
            add_nets(inputs, first, names.len() as u32)
        }
        Role::Output => {
            add_places_but(names, number, variable.range, clock)?;
            add_nets(outputs, first, names.len() as u32)
        }
    }
}

/// Adds the bits at all places of a range but one. After an error some of them may stand behind the names so far.
fn add_places_but(
    names: &mut IndexSet<BitName>,
    variable: u32,
    range: Option<(u32, u32)>,
    clock: Option<u32>,
) -> Result<(), AllocError>
    requires range { IsRange range }
    requires clock { ForSome clock (λ place. place < range_width range) }
    requires fresh { All (λ bit. bit.variable < variable) names.old.keys }
    ensures ok { OnOk result (names.new.keys ≡ names.old.keys ++ map (bit_at variable) (places_but clock (range_width range))) }
    ensures err { OnErr result (take (length names.old.keys) names.new.keys ≡ names.old.keys) }
{
    let width = width_of(range);
    match clock {
        None => add_places(names, variable, 0, width),
        Some(place) => {
            add_places(names, variable, 0, place)?;
            add_places(names, variable, place + 1, width)
        }
    }
}
