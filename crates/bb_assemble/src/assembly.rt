//! The named netlist of what items make.
//!
//! Variables go into a builder in their order, each with the nets of its kept bits, so that a net's number is the place of its bit
//! among the kept ones. All that a kept gate or a flip-flop reads or drives is kept, and arities hold. The builder refuses nothing: no
//! two variables have one name, there are no more nets than bits and no more gates than those, and each net has one driver. So what is
//! left of its faults is want of memory.

ghost use Rattle.std.specs.Prelude.{◌≡◌, ◌<◌, ◌≤◌, ◌+◌, ◌-◌, ◌^◌, ◌∷◌, [], IfOk, OnOk, Some, None, ℕ, All, true, not, map, filter, length, slice_get};
ghost use Rattle.std.specs.Option.{ForSome};
ghost use Rattle.bb_base.specs.Variables.{IsEntry, IsRange, IsBit, is_port, is_input, range_width, bit_at, bit_count};
ghost use Rattle.bb_base.specs.Net.{renamed_gate, HasArity};
ghost use Rattle.bb_base.specs.Named.{IsNamed, lookup_of};
ghost use Rattle.bb_base.specs.Building.{net_limit, MayClock, port_bits, with_gates, with_flops};
ghost use Rattle.bb_drive.specs.Nets.{nets, driver_fault, has_bit, input_bits};
ghost use Rattle.bb_drive.specs.Clock.{clock_of, clock_fault, is_data};
ghost use Rattle.bb_drive.specs.NamedOf.{named_of};
ghost use Rattle.bb_drive.specs.Within.{IsWithin, IsGateWithin, IsFlopWithin};
ghost use Rattle.bb_assemble.specs.Assembling.{ArePortsFirst, number_for, is_kept, is_clock_bit, bit_place, kept_bits, with_names, Adds, AreAdded, KeepsPorts, numbered_flop, HasNets, HasNetsWhereFlagged, HasBothNets};
ghost use Rattle.bb_drive.specs.Origins.{is_marked};

use crate::numbers::{nets_of, numbers_of};
use bb_base::{Gate, Name, NetFault, NetId, Role, Variable, width_of};
use bb_drive::Clock;
use bb_fault::{Clocked, Work};
use bb_net::{Builder, Named};
use indexmap::IndexMap;
use std::alloc::{AllocError, Global};

/// Where a variable's bits stand: its number, the number of its first bit, and how many there are.
#[derive(Clone, Copy)]
struct Extent {
    number: u32,
    first: u32,
    width: u32,
}

/// The place of the clock's bit in a variable of this width whose bits begin at `first`, where it has it.
fn place_in(clock: Option<u32>, first: u32, width: u32) -> Option<u32>
    ensures { result ≡ bit_place clock first width }
{
    match clock {
        Some(bit) if first <= bit && bit - first < width => Some(bit - first),
        _ => None,
    }
}

/// Want of memory, where a builder's fault is that.
fn only_memory(fault: NetFault) -> AllocError
    requires { fault ≡ NetFault.NoMemory }
{
    AllocError
}

/// Adds the nets of those bits of a variable that are kept.
fn add_places(
    builder: &mut Builder,
    extent: Extent,
    numbers: &[u32],
    count: u32,
) -> Result<(), AllocError>
    requires bits { (p : ℕ) → p < extent.width → IsBit builder.old.variables (bit_at extent.number p) }
    requires no_clock { ForSome builder.old.clock (λ c. c.variable < extent.number) }
    requires before { All (λ bit. bit.variable < extent.number) builder.old.names }
    requires within { extent.first + extent.width ≤ length numbers.now }
    requires names { length builder.old.names ≤ extent.first }
    requires room { length numbers.now ≤ net_limit }
    ensures { OnOk result (builder.new ≡ with_names builder.old (kept_bits (is_kept numbers.now count) extent.number extent.first extent.width)) }
{
    for place in 0..extent.width {
        if numbers[extent.first as usize + place as usize] < count {
            match builder.net(extent.number, place) {
                Ok(_) => {}
                // There are no more nets than bits so far.
                Err(fault) => return Err(only_memory(fault)),
            }
        }
    }
    Ok(())
}

/// Adds a variable, and answers its number.
fn declare(
    builder: &mut Builder,
    name: Name,
    variable: Variable,
    place: Option<u32>,
) -> Result<u32, AllocError>
    requires range { IsRange variable.range }
    requires ports_first { is_port variable.role ≡ true → All (λ v. is_port v.1.role ≡ true) builder.old.variables }
    requires few { length builder.old.variables < 2 ^ 32 - 1 }
    requires clock { ForSome place (MayClock builder.old variable) }
    requires fresh { lookup_of name builder.old ≡ None }
    requires room { length builder.old.names + length (port_bits (length builder.old.variables) variable place) ≤ net_limit }
    ensures added { OnOk result (Adds builder.old builder.new (name, variable) place (port_bits (length builder.old.variables) variable place)) }
    ensures number { IfOk result (λ number. number ≡ length builder.old.variables) }
{
    match builder.variable(name, variable.range, variable.role, place) {
        Ok(number) => Ok(number),
        // The name is new, and there is room for the nets.
        Err(fault) => Err(only_memory(fault)),
    }
}

/// Adds a variable, and the nets of those of its bits that are kept.
fn add_variable(
    builder: &mut Builder,
    name: Name,
    variable: Variable,
    place: Option<u32>,
    extent: Extent,
    numbers: &[u32],
    count: u32,
) -> Result<(), AllocError>
    requires number { extent.number ≡ length builder.old.variables }
    requires few { extent.number < 2 ^ 32 - 1 }
    requires width { extent.width ≡ range_width variable.range }
    requires range { IsRange variable.range }
    requires ports_first { is_port variable.role ≡ true → All (λ v. is_port v.1.role ≡ true) builder.old.variables }
    requires fresh { lookup_of name builder.old ≡ None }
    requires clock { (p : ℕ) → place ≡ Some p → (p < extent.width) × (builder.old.clock ≡ None) }
    requires input { (p : ℕ) → place ≡ Some p → is_input variable.role ≡ true }
    requires clock_before { ForSome builder.old.clock (λ c. c.variable < extent.number) }
    requires before { All (λ bit. bit.variable < extent.number) builder.old.names }
    requires within { extent.first + extent.width ≤ length numbers.now }
    requires names { length builder.old.names ≤ extent.first }
    requires room { length numbers.now ≤ net_limit }
    requires port { is_port variable.role ≡ true → (p : ℕ) → p < extent.width → is_kept numbers.now count (extent.first + p) ≡ not (is_clock_bit place p) }
    ensures { OnOk result (Adds builder.old builder.new (name, variable) place (kept_bits (is_kept numbers.now count) extent.number extent.first extent.width)) }
{
    declare(builder, name, variable, place)?;
    match variable.role {
        // A port has nets for all of its bits but the clock's at once.
        Role::Input | Role::Output => Ok(()),
        Role::Wire => add_places(builder, extent, numbers, count),
    }
}

/// Adds a gate over numbers of nets.
fn add_gate(
    alloc: Global,
    builder: &mut Builder,
    gate: &Gate,
    numbers: &[u32],
    count: u32,
) -> Result<(), AllocError>
    requires names { count ≡ length builder.old.names }
    requires few { length builder.old.netlist.gates < 2 ^ 32 - 1 }
    requires within { IsGateWithin (length numbers.now) gate.now }
    requires nets { HasNets numbers.now count gate.now }
    requires arity { HasArity gate.now }
    ensures { OnOk result (builder.new ≡ with_gates builder.old (renamed_gate (number_for numbers.now) gate.now ∷ [])) }
{
    let out = numbers[gate.out.0 as usize];
    let ins = nets_of(alloc, gate.ins.as_slice(), numbers)?;
    match builder.gate(gate.op, NetId(out), &ins) {
        Ok(()) => Ok(()),
        // The gate has as many inputs as its operator takes.
        Err(fault) => Err(only_memory(fault)),
    }
}

/// Adds the gates whose outputs are data.
fn add_gates(
    alloc: Global,
    builder: &mut Builder,
    gates: &[Gate],
    flags: &[bool],
    numbers: &[u32],
    count: u32,
) -> Result<(), AllocError>
    requires names { count ≡ length builder.old.names }
    requires none { builder.old.netlist.gates ≡ [] }
    requires few { length gates.now < 2 ^ 32 - 1 }
    requires within { All (IsGateWithin (length numbers.now)) gates.now }
    requires flags { length numbers.now ≤ length flags.now }
    requires nets { All (HasNetsWhereFlagged numbers.now count flags.now) gates.now }
    requires arities { All HasArity gates.now }
    ensures { OnOk result (builder.new ≡ with_gates builder.old (map (renamed_gate (number_for numbers.now)) (filter (λ g. is_marked flags.now g.out) gates.now))) }
{
    for gate in gates {
        if flags[gate.out.0 as usize] {
            add_gate(alloc, builder, gate, numbers, count)?;
        }
    }
    Ok(())
}

/// Adds the flip-flops over numbers of nets.
fn add_flops(
    builder: &mut Builder,
    flops: &[Clocked],
    numbers: &[u32],
    count: u32,
) -> Result<(), AllocError>
    requires names { count ≡ length builder.old.names }
    requires none { builder.old.netlist.flops ≡ [] }
    requires few { length flops.now < 2 ^ 32 - 1 }
    requires within { All (IsFlopWithin (length numbers.now)) flops.now }
    requires nets { All (HasBothNets numbers.now count) flops.now }
    ensures { OnOk result (builder.new ≡ with_flops builder.old (map (numbered_flop (number_for numbers.now)) flops.now)) }
{
    for flop in flops {
        let q = numbers[flop.q.0 as usize];
        let d = numbers[flop.d.0 as usize];
        builder.flop(NetId(q), NetId(d))?;
    }
    Ok(())
}

/// Adds the variables in their order, each with the nets of its kept bits.
fn add_variables(
    builder: &mut Builder,
    vars: IndexMap<Name, Variable>,
    clock: Option<u32>,
    numbers: &[u32],
    count: u32,
) -> Result<(), AllocError>
    requires no_variables { builder.old.variables ≡ [] }
    requires no_names { builder.old.names ≡ [] }
    requires no_clock { builder.old.clock ≡ None }
    requires entries { All IsEntry vars.entries }
    requires ports_first { ArePortsFirst vars.entries }
    requires ports { KeepsPorts vars.entries (length numbers.now) clock (is_kept numbers.now count) }
    requires total { bit_count vars.entries ≡ length numbers.now }
    requires room { length numbers.now ≤ net_limit }
    requires clock { (c : ℕ) → clock ≡ Some c → has_bit (input_bits vars.entries) c ≡ true }
    ensures variables { OnOk result (builder.new.variables ≡ vars.entries) }
    ensures stands { OnOk result (AreAdded builder.old clock (is_kept numbers.now count) vars.entries builder.new) }
{
    // `len` ensures that no two names are alike.
    let _variables = vars.len();
    let mut number: u32 = 0;
    let mut first: u32 = 0;
    for (name, variable) in vars {
        let width = width_of(variable.range);
        let place = place_in(clock, first, width);
        let extent = Extent {
            number,
            first,
            width,
        };
        add_variable(builder, name, variable, place, extent, numbers, count)?;
        number += 1;
        first += width;
    }
    Ok(())
}

/// The named netlist over these variables and this work, without the clock's nets.
///
/// There are no more bits than a builder makes nets.
pub fn assemble(
    alloc: Global,
    name: Name,
    vars: IndexMap<Name, Variable>,
    work: &Work,
    bits: &[u32],
    clock: &Clock,
) -> Result<Named, AllocError>
    requires nets { bits.now ≡ nets vars.entries work.now }
    requires driven { driver_fault vars.entries work.now ≡ None }
    requires clocked { clock_fault vars.entries work.now ≡ None }
    requires within { IsWithin work.now }
    requires clock { clock.now.bit ≡ clock_of work.now }
    requires data { (b : ℕ) → b < work.now.fresh → slice_get clock.now.data.items b ≡ Some (is_data work.now b) }
    requires entries { All IsEntry vars.entries }
    requires ports_first { ArePortsFirst vars.entries }
    requires total { bit_count vars.entries ≡ work.now.fresh }
    requires room { work.now.fresh ≤ net_limit }
    requires arities { All HasArity work.now.gates }
    ensures named { IfOk result (λ named. named ≡ named_of name vars.entries work.now) }
    ensures valid { OnOk result (IsNamed (named_of name vars.entries work.now)) }
{
    let flags = clock.data.as_slice();
    let (nets, count) = numbers_of(alloc, work.fresh, bits, flags)?;
    let numbers = nets.as_slice();
    let mut builder = Builder::new(alloc, name)?;
    add_variables(&mut builder, vars, clock.bit, numbers, count)?;
    add_gates(alloc, &mut builder, &work.gates, flags, numbers, count)?;
    add_flops(&mut builder, &work.flops, numbers, count)?;
    match builder.finish() {
        Ok(named) => Ok(named),
        // Each net has exactly one driver.
        Err(fault) => Err(only_memory(fault)),
    }
}
