ghost use Rattle.std.specs.Prelude.{◌≡◌, ◌<◌, ◌≤◌, ◌+◌, ◌-◌, ◌^◌, ◌++◌, ◌∷◌, [], ℕ, List, All, length, map, IfOk, OnOk, IfErr, IfSome, Option, Some, None, slice_get, true, false, IsTrue};
ghost use Rattle.std.specs.Option.{ForSome, option_map};
ghost use Rattle.std.specs.List.{list_all, AllByRecursion};
ghost use Rattle.bb_base.specs.Variables.{IsBit, bit_of, IsRange, range_width, is_port, clock_place as place_of_clock, Entry};
ghost use Rattle.bb_base.specs.Net.{Gate, Flop, renamed_gate, renamed_flop};
ghost use Rattle.bb_base.specs.Named.{Named as NamedValue, name_of_net, net_text};
ghost use Rattle.bb_base.specs.Building.{started, MayClock, clock_with};
ghost use Rattle.bb_canon.specs.Faults.{NamesNoLine, IsWant};
ghost use Rattle.bb_spell.specs.Limits.{IsBuildable};
ghost use Rattle.bb_canon.specs.Toward.{IsDrawn, IsGateOf, IsFlopOf, IsDeclared};
ghost use Rattle.bb_canon.specs.Drafting.{index_place, indexed_place, named_bit, canon_fault, may_come};

use bb_base::{BitName, Name, NetFault, NetId, Role, Variable, is_port_role};
use bb_net::{Builder, Named};
use bb_spell::{BitText, Instance, Statement};
use std::alloc::{AllocError, AllocFailed, Global};
use std::marker::Model;

/// Why a text isn't read.
#[derive(Clone, Copy, Debug, PartialEq, Eq)]
pub enum CanonFault {
    /// A line that isn't canonical in its place.
    Line { line: u32 },
    /// Lines that no named netlist has.
    Unfit,
    NoMemory,
}

impl From<AllocError> for CanonFault {
    ghost use Rattle.std.specs.Prelude.{◌≡◌};
    ghost use Rattle.bb_canon.specs.declared.draft.CanonFault.TheVariants.{NoMemory};

    ghost from_gives = { λ _ e. e ≡ NoMemory };

    fn from(_: AllocError) -> Self {
        CanonFault::NoMemory
    }
}

impl<T: Drop> From<AllocFailed<T>> for CanonFault {
    ghost use Rattle.std.specs.Prelude.{◌≡◌};
    ghost use Rattle.bb_canon.specs.declared.draft.CanonFault.TheVariants.{NoMemory};

    ghost from_gives = { λ _ e. e ≡ NoMemory };

    fn from(_: AllocFailed<T>) -> Self {
        CanonFault::NoMemory
    }
}

impl From<NetFault> for CanonFault {
    ghost use Rattle.std.specs.Prelude.{◌≡◌};
    ghost use Rattle.bb_canon.specs.Drafting.{canon_fault};

    ghost from_gives = { λ f e. e ≡ canon_fault f };

    fn from(fault: NetFault) -> Self {
        match fault {
            NetFault::NoMemory => CanonFault::NoMemory,
            _ => CanonFault::Unfit,
        }
    }
}

/// The place of an index of a range, from the left.
fn index_place(range: (u32, u32), index: u32) -> Option<u32>
    ensures value { result ≡ index_place range index }
    ensures within { IfSome result (λ place. place < range_width (Some range)) }
{
    let (left, right) = range;
    if left <= right {
        if left <= index && index <= right {
            return Some(index - left);
        }
        return None;
    }
    if right <= index && index <= left {
        return Some(left - index);
    }
    None
}

/// The place of an index, from the left: the only one where the variable is no vector.
fn indexed_place(range: Option<(u32, u32)>, index: Option<u32>) -> Option<u32>
    ensures value { result ≡ indexed_place range index }
    ensures within { IfSome result (λ place. place < range_width range) }
{
    match (range, index) {
        (None, None) => Some(0),
        (Some(range), Some(index)) => index_place(range, index),
        _ => None,
    }
}

/// The clock's bit once a variable of this number was added, of which this place was given as the clock.
fn clock_after(clock: Option<BitName>, variable: u32, place: Option<u32>) -> Option<BitName>
    ensures { result ≡ clock_with clock variable place }
{
    match place {
        Some(place) => Some(BitName { variable, place }),
        None => clock,
    }
}

/// A netlist that is being read: a builder, with what it must be known of it.
#[derive(Drop)]
pub(crate) struct Draft {
    builder: Builder,
    variables: Vec<Variable>,
    only_ports: bool,
    clock: Option<BitName>,
    gates: u32,
    flops: u32,
}

impl Model for Draft {
    ghost use Rattle.std.specs.Prelude.{◌≡◌, map, length};
    ghost use Rattle.std.specs.List.{list_all};
    ghost use Rattle.bb_base.specs.Variables.{is_port};
    ghost use Rattle.bb_base.specs.Named.{Named as NamedValue};

    ghost Value = { NamedValue };

    ghost view = { λ d. d.builder };

    ghost invariant = { λ d. (d.variables.items ≡ map (λ v. v.1) d.builder.variables)
        × (d.only_ports ≡ list_all (λ v. is_port v.1.role) d.builder.variables)
        × (d.clock ≡ d.builder.clock)
        × (d.gates ≡ length d.builder.netlist.gates)
        × (d.flops ≡ length d.builder.netlist.flops) };
}

impl Draft {
    /// A module with this name, without variables and nets.
    pub(crate) fn new(alloc: Global, name: Name) -> Result<Draft, AllocError>
        ensures started { IfOk result (λ draft. draft ≡ started name) }
        ensures declared { (a : NamedValue) → IsBuildable a → name ≡ a.module_name → IfOk result (λ draft. IsDeclared a draft a.variables) }
    {
        // `bytes` ensures that the name is one.
        let _valid = name.bytes();
        Ok(Draft {
            builder: Builder::new(alloc, name)?,
            variables: Vec::new(alloc),
            only_ports: true,
            clock: None,
            gates: 0,
            flops: 0,
        })
    }

    /// The place of the clock's bit, where it is one of such a variable.
    fn clock_place(&self, name: &Name, variable: Variable, clock: &Option<BitText>) -> Option<u32>
        ensures may { ForSome result (MayClock self.now variable) }
        ensures placed { (a : NamedValue) (v : Entry) (left : List Entry) → IsBuildable a → IsDeclared a self.now (v ∷ left) → name.now ≡ v.0 → variable ≡ v.1 → clock.now ≡ option_map (bit_of a.variables) a.clock → result ≡ place_of_clock a.clock (length self.now.variables) }
    {
        let Some(clock) = clock else {
            return None;
        };
        if self.clock.is_some() || variable.role != Role::Input || clock.name != *name {
            return None;
        }
        indexed_place(variable.range, clock.index)
    }

    /// Whether a variable may come next, where it is a port or a wire.
    fn may_come(&self, port: bool) -> bool
        ensures value { result ≡ may_come self.now port }
        ensures ports { IsTrue result → port ≡ true → All (λ v. is_port v.1.role ≡ true) self.now.variables }
        ensures few { IsTrue result → length self.now.variables < 2 ^ 32 - 1 }
        ensures tracked { IsTrue result → port ≡ true → list_all (λ v. is_port v.1.role) self.now.variables ≡ true }
    {
        if port && !self.only_ports {
            return false;
        }
        self.variables.len() < 4_294_967_295
    }

    /// Adds a variable, where a bit of it may be the clock.
    pub(crate) fn declare(
        &mut self,
        name: Name,
        variable: Variable,
        clock: &Option<BitText>,
    ) -> Result<(), CanonFault>
        requires { IsRange variable.range }
        ensures only { IfErr result NamesNoLine }
        ensures declared { (a : NamedValue) (v : Entry) (left : List Entry) → IsBuildable a → IsDeclared a self.old (v ∷ left) → name ≡ v.0 → variable ≡ v.1 → clock.now ≡ option_map (bit_of a.variables) a.clock → OnOk result (IsDeclared a self.new left) }
        ensures want { (a : NamedValue) (v : Entry) (left : List Entry) → IsBuildable a → IsDeclared a self.old (v ∷ left) → name ≡ v.0 → variable ≡ v.1 → clock.now ≡ option_map (bit_of a.variables) a.clock → IfErr result IsWant }
    {
        let port = is_port_role(variable.role);
        if !self.may_come(port) {
            return Err(CanonFault::Unfit);
        }
        let clock = self.clock_place(&name, variable, clock);
        self.variables.push(variable)?;
        match self
            .builder
            .variable(name, variable.range, variable.role, clock)
        {
            Ok(number) => {
                self.only_ports = port;
                self.clock = clock_after(self.clock, number, clock);
                Ok(())
            }
            Err(fault) => {
                self.variables.pop();
                Err(CanonFault::from(fault))
            }
        }
    }

    /// The bit that a text names.
    fn bit(&self, text: &BitText) -> Option<BitName>
        ensures value { result ≡ named_bit self.now text.now }
        ensures stands { IfSome result (IsBit self.now.variables) }
    {
        let number = self.builder.lookup(&text.name)?;
        let variable = self.variables[number as usize];
        let place = indexed_place(variable.range, text.index)?;
        Some(BitName {
            variable: number,
            place,
        })
    }

    /// The net that a text names, which is made where it is named first.
    #[tactic(auto, using(crate::proofs::Drafts::names_within))]
    fn net(&mut self, text: &BitText) -> Result<NetId, CanonFault>
        ensures found { IfOk result (λ net. slice_get self.new.names net ≡ named_bit self.old text.now) }
        ensures grows { length self.old.names ≤ length self.new.names }
        ensures netlist { self.new.netlist ≡ self.old.netlist }
        ensures within { IfOk result (λ net. net < length self.new.names) }
        ensures only { IfErr result NamesNoLine }
        ensures kept { (k : ℕ) → k < length self.old.names → name_of_net self.new k ≡ name_of_net self.old k }
        ensures drawn { (a : NamedValue) (gates : List (Gate ℕ)) (flops : List (Flop ℕ)) (m : ℕ) → IsBuildable a → IsDrawn a self.old gates flops → m < length a.names → text.now ≡ net_text a m → OnOk result (IsDrawn a self.new gates flops) }
        ensures named { (a : NamedValue) (gates : List (Gate ℕ)) (flops : List (Flop ℕ)) (m : ℕ) → IsBuildable a → IsDrawn a self.old gates flops → m < length a.names → text.now ≡ net_text a m → IfOk result (λ net. name_of_net self.new net ≡ name_of_net a m) }
        ensures want { (a : NamedValue) (gates : List (Gate ℕ)) (flops : List (Flop ℕ)) (m : ℕ) → IsBuildable a → IsDrawn a self.old gates flops → m < length a.names → text.now ≡ net_text a m → IfErr result IsWant }
    {
        let Some(bit) = self.bit(text) else {
            return Err(CanonFault::Unfit);
        };
        if self.clock == Some(bit) {
            return Err(CanonFault::Unfit);
        }
        Ok(self.builder.net(bit.variable, bit.place)?)
    }

    /// The nets that texts name.
    fn nets(&mut self, alloc: Global, texts: &[BitText]) -> Result<Vec<NetId>, CanonFault>
        ensures grows { length self.old.names ≤ length self.new.names }
        ensures netlist { self.new.netlist ≡ self.old.netlist }
        ensures only { IfErr result NamesNoLine }
        ensures within { IfOk result (λ nets. All (λ net. net < length self.new.names) nets.items) }
        ensures kept { (k : ℕ) → k < length self.old.names → name_of_net self.new k ≡ name_of_net self.old k }
        ensures drawn { (a : NamedValue) (gates : List (Gate ℕ)) (flops : List (Flop ℕ)) (ms : List ℕ) → IsBuildable a → IsDrawn a self.old gates flops → AllByRecursion (λ m. m < length a.names) ms → texts.now ≡ map (net_text a) ms → OnOk result (IsDrawn a self.new gates flops) }
        ensures named { (a : NamedValue) (gates : List (Gate ℕ)) (flops : List (Flop ℕ)) (ms : List ℕ) → IsBuildable a → IsDrawn a self.old gates flops → AllByRecursion (λ m. m < length a.names) ms → texts.now ≡ map (net_text a) ms → IfOk result (λ nets. map (name_of_net self.new) nets.items ≡ map (name_of_net a) ms) }
        ensures want { (a : NamedValue) (gates : List (Gate ℕ)) (flops : List (Flop ℕ)) (ms : List ℕ) → IsBuildable a → IsDrawn a self.old gates flops → AllByRecursion (λ m. m < length a.names) ms → texts.now ≡ map (net_text a) ms → IfErr result IsWant }
    {
        let mut nets = Vec::new(alloc);
        'texts: for text in texts {
            nets.push(self.net(text)?)?;
        }
        Ok(nets)
    }

    /// Adds a gate.
    pub(crate) fn state(&mut self, alloc: Global, statement: &Statement) -> Result<(), CanonFault>
        ensures only { IfErr result NamesNoLine }
        ensures drawn { (a : NamedValue) (gates : List (Gate ℕ)) (flops : List (Flop ℕ)) (g : Gate ℕ) → IsBuildable a → IsDrawn a self.old gates flops → IsGateOf a g → length gates < 2 ^ 32 - 1 → statement.now ≡ renamed_gate (net_text a) g → OnOk result (IsDrawn a self.new (gates ++ g ∷ []) flops) }
        ensures want { (a : NamedValue) (gates : List (Gate ℕ)) (flops : List (Flop ℕ)) (g : Gate ℕ) → IsBuildable a → IsDrawn a self.old gates flops → IsGateOf a g → length gates < 2 ^ 32 - 1 → statement.now ≡ renamed_gate (net_text a) g → IfErr result IsWant }
    {
        let out = self.net(&statement.out)?;
        let ins = self.nets(alloc, &statement.ins)?;
        if self.gates == u32::MAX {
            return Err(CanonFault::Unfit);
        }
        self.builder.gate(statement.op, out, &ins)?;
        self.gates += 1;
        Ok(())
    }

    /// Adds a flip-flop.
    pub(crate) fn clocked(&mut self, instance: &Instance) -> Result<(), CanonFault>
        ensures only { IfErr result NamesNoLine }
        ensures drawn { (a : NamedValue) (gates : List (Gate ℕ)) (flops : List (Flop ℕ)) (f : Flop ℕ) → IsBuildable a → IsDrawn a self.old gates flops → IsFlopOf a f → length flops < 2 ^ 32 - 1 → Some instance.now.clock ≡ option_map (bit_of a.variables) a.clock → instance.now.flop ≡ renamed_flop (net_text a) f → OnOk result (IsDrawn a self.new gates (flops ++ f ∷ [])) }
        ensures want { (a : NamedValue) (gates : List (Gate ℕ)) (flops : List (Flop ℕ)) (f : Flop ℕ) → IsBuildable a → IsDrawn a self.old gates flops → IsFlopOf a f → length flops < 2 ^ 32 - 1 → Some instance.now.clock ≡ option_map (bit_of a.variables) a.clock → instance.now.flop ≡ renamed_flop (net_text a) f → IfErr result IsWant }
    {
        let Some(clock) = self.bit(&instance.clock) else {
            return Err(CanonFault::Unfit);
        };
        if self.clock != Some(clock) {
            return Err(CanonFault::Unfit);
        }
        let q = self.net(&instance.q)?;
        let d = self.net(&instance.d)?;
        if self.flops == u32::MAX {
            return Err(CanonFault::Unfit);
        }
        self.builder.flop(q, d)?;
        self.flops += 1;
        Ok(())
    }

    /// The netlist.
    pub(crate) fn finish(self) -> Result<Named, CanonFault>
        ensures named { IfOk result (λ named. named ≡ self) }
        ensures only { IfErr result NamesNoLine }
        ensures want { (a : NamedValue) → IsBuildable a → IsDrawn a self a.netlist.gates a.netlist.flops → IfErr result IsWant }
    {
        if self.clock.is_some() != (self.flops > 0) {
            return Err(CanonFault::Unfit);
        }
        let Draft {
            builder,
            variables: _variables,
            only_ports: _,
            clock: _,
            gates: _,
            flops: _,
        } = self;
        Ok(builder.finish()?)
    }
}
