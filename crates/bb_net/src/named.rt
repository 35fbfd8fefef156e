ghost use Rattle.std.specs.Prelude.{◌≡◌, ◌<◌, ◌≤◌, ◌↔◌, ◌^◌, length, map, Some, None, IfSome, IsNone, Contains, Option, slice_get, IsSome};
ghost use Rattle.bb_base.specs.Named.{lookup_of, IsNamed};
ghost use Rattle.bb_base.specs.Building.{find_of, net_limit};
ghost use Rattle.bb_base.specs.Variables.{ports_of};

use bb_base::{BitName, Name, NetId, Netlist, Variable};
use indexmap::{IndexMap, IndexSet};
use std::marker::Model;

/// A netlist with its module's name, its variables, its clock's bit, and the bit name of each net.
///
/// A net's number is the place of its bit's name, and a variable's number the place of its name.
#[derive(Drop)]
pub struct Named {
    pub(crate) module: Name,
    pub(crate) variables: IndexMap<Name, Variable>,
    pub(crate) ports: u32,
    pub(crate) clock: Option<BitName>,
    pub(crate) names: IndexSet<BitName>,
    pub(crate) netlist: Netlist,
}

impl Model for Named {
    ghost use Rattle.std.specs.Prelude.{◌≡◌, ◌<◌, ◌≤◌, ◌^◌, length};
    ghost use Rattle.bb_base.specs.Named.{Named as NamedValue, IsNamed};
    ghost use Rattle.bb_base.specs.Building.{net_limit};
    ghost use Rattle.bb_base.specs.Variables.{ports_of};

    ghost Value = { NamedValue };

    ghost view = { λ n. record { module_name = n.module; variables = n.variables.entries; clock = n.clock; names = n.names.keys; netlist = n.netlist } };

    ghost invariant = { λ n. IsNamed (record { module_name = n.module; variables = n.variables.entries; clock = n.clock; names = n.names.keys; netlist = n.netlist }) × (length n.variables.entries < 2 ^ 32) × (length n.names.keys ≤ net_limit) × (n.ports ≡ ports_of n.variables.entries) };
}

impl Named {
    /// The nets and what drives them.
    pub fn netlist(&self) -> &Netlist
        ensures value { result.now ≡ self.now.netlist }
        ensures few { length self.now.names ≤ net_limit }
        ensures named { IsNamed self.now }
    {
        &self.netlist
    }

    /// The module's name.
    pub fn module(&self) -> &Name
        ensures value { result.now ≡ self.now.module_name }
        ensures named { IsNamed self.now }
    {
        &self.module
    }

    /// How many variables there are.
    pub fn variables(&self) -> u32
        ensures count { result ≡ length self.now.variables }
        ensures few { length self.now.variables < 2 ^ 32 }
        ensures named { IsNamed self.now }
    {
        self.variables.len() as u32
    }

    /// The name of a variable, and what it stands for. Ports come first.
    pub fn variable(&self, number: u32) -> (&Name, Variable)
        requires { number < length self.now.variables }
        ensures value { slice_get self.now.variables number ≡ Some (result.0.now, result.1) }
        ensures named { IsNamed self.now }
    {
        let (name, variable) = self.variables.get_index(number as usize).unwrap();
        (name, *variable)
    }

    /// The number of the variable with this name.
    pub fn lookup(&self, name: &Name) -> Option<u32>
        ensures { result ≡ lookup_of name.now self.now }
    {
        match self.variables.get_index_of(name) {
            Some(index) => Some(index as u32),
            None => None,
        }
    }

    /// How many variables are ports. They are the first ones.
    pub fn ports(&self) -> u32
        ensures count { result ≡ ports_of self.now.variables }
        ensures named { IsNamed self.now }
    {
        self.ports
    }

    /// The clock's bit, where there is a flip-flop. The clock is no net.
    pub fn clock(&self) -> Option<BitName>
        ensures value { result ≡ self.now.clock }
        ensures named { IsNamed self.now }
    {
        self.clock
    }

    /// The bit name of a net.
    pub fn name(&self, net: NetId) -> BitName
        requires { net < length self.now.names }
        ensures value { slice_get self.now.names net ≡ Some result }
        ensures named { IsNamed self.now }
    {
        *self.names.get_index(net.0 as usize).unwrap()
    }

    /// The net of a bit.
    pub fn find(&self, bit: BitName) -> Option<NetId>
        ensures value { result ≡ find_of bit self.now }
        ensures none { IsNone result ↔ (Contains self.now.names bit → ⊥) }
        ensures found { IfSome result (λ net. slice_get self.now.names net ≡ Some bit) }
    {
        match self.names.get_index_of(&bit) {
            Some(index) => Some(NetId(index as u32)),
            None => None,
        }
    }
}
