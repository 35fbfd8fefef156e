//! The variables and nets of the original in the written netlist.

ghost use Rattle.std.specs.Prelude.{◌≡◌, ◌≢◌, ◌<◌, ◌≤◌, ◌+◌, ◌^◌, ◌++◌, ◌∷◌, [], ℕ, false, All, Contains, IfOk, OnOk, Some, length, take, drop, slice_get, slice_index};
ghost use Rattle.std.specs.Option.{ForSome};
ghost use Rattle.bb_base.specs.Variables.{Entry, IsBit, IsRange, clock_place, is_port, ports_of, range_width, bit_at, bit_count, role_bits};
ghost use Rattle.bb_base.specs.Named.{IsNamed, name_of_net};
ghost use Rattle.bb_base.specs.Building.{started, net_limit};
ghost use Rattle.bb_lay.specs.Laying.{AddsAll, CanStand, IsLaid, with_bits, net_bits, all_net_bits, new_number};

use crate::declare::{add_bit, declare, only_memory};
use bb_base::{BitName, Name, NetId, Variable, width_of};
use bb_net::{Builder, Named};
use std::alloc::{AllocError, Global};

/// The place of the clock's bit in a variable, where it has it.
fn clock_in(clock: Option<BitName>, number: u32) -> Option<u32>
    ensures { result ≡ clock_place clock number }
{
    match clock {
        Some(bit) if bit.variable == number => Some(bit.place),
        _ => None,
    }
}

/// AddsAll the original's ports as they stand, with its clock.
pub(crate) fn add_own_ports(
    alloc: Global,
    builder: &mut Builder,
    named: &Named,
) -> Result<(), AllocError>
    requires started { builder.old ≡ started named.now.module_name }
    requires stand { CanStand (take (ports_of named.now.variables) named.now.variables) }
    ensures adds { OnOk result (AddsAll builder.old builder.new (take (ports_of named.now.variables) named.now.variables) (role_bits is_port named.now.clock 0 (take (ports_of named.now.variables) named.now.variables)) named.now.clock) }
    ensures laid { OnOk result (IsLaid builder.new) }
{
    'ports: for number in 0..named.ports() {
        let (name, variable) = named.variable(number);
        let clock = clock_in(named.clock(), number);
        declare(builder, name.copy(alloc)?, variable, clock)?;
    }
    Ok(())
}

/// Makes the nets of the last variable's bits that are nets of the original, where the variable has number `of`.
fn add_bits(
    builder: &mut Builder,
    named: &Named,
    of: u32,
    number: u32,
    width: u32,
) -> Result<(), AllocError>
    requires bits { (place : ℕ) → place < width → IsBit builder.old.variables (bit_at number place) }
    requires no_clock { ForSome builder.old.clock (λ c. c.variable < number) }
    requires before { All (λ bit. bit.variable < number) builder.old.names }
    requires room { length builder.old.names + width ≤ net_limit }
    ensures { OnOk result (builder.new ≡ with_bits builder.old (net_bits named.now.names of number width)) }
{
    'places: for place in 0..width {
        let bit = BitName {
            variable: of,
            place,
        };
        if named.find(bit).is_some() {
            add_bit(builder, number, place)?;
        }
    }
    Ok(())
}

/// AddsAll a wire of the original, and its nets.
fn add_own_wire(
    builder: &mut Builder,
    named: &Named,
    of: u32,
    name: Name,
    variable: Variable,
) -> Result<(), AllocError>
    requires wire { is_port variable.role ≡ false }
    requires laid { IsLaid builder.old }
    requires stand { CanStand (builder.old.variables ++ (name, variable) ∷ []) }
    ensures adds { OnOk result (AddsAll builder.old builder.new ((name, variable) ∷ []) (net_bits named.now.names of (length builder.old.variables) (range_width variable.range)) builder.old.clock) }
    ensures laid { OnOk result (IsLaid builder.new) }
{
    let number = declare(builder, name, variable, None)?;
    add_bits(builder, named, of, number, width_of(variable.range))?;
    Ok(())
}

/// AddsAll the original's other variables, each with its nets.
pub(crate) fn add_own_wires(
    alloc: Global,
    builder: &mut Builder,
    named: &Named,
) -> Result<(), AllocError>
    requires laid { IsLaid builder.old }
    requires stand { CanStand (builder.old.variables ++ drop (ports_of named.now.variables) named.now.variables) }
    ensures adds { OnOk result (AddsAll builder.old builder.new (drop (ports_of named.now.variables) named.now.variables) (all_net_bits named.now.names (ports_of named.now.variables) (length builder.old.variables) (drop (ports_of named.now.variables) named.now.variables)) builder.old.clock) }
    ensures laid { OnOk result (IsLaid builder.new) }
{
    'wires: for of in named.ports()..named.variables() {
        let (name, variable) = named.variable(of);
        add_own_wire(builder, named, of, name.copy(alloc)?, variable)?;
    }
    Ok(())
}

/// The new number of a variable of the original.
fn moved_number(ports: u32, added: u32, number: u32) -> u32
    requires { number + added < 2 ^ 32 }
    ensures { result ≡ new_number ports added number }
{
    if number < ports {
        number
    } else {
        number + added
    }
}

/// The number of a net that stands.
fn number_of(builder: &mut Builder, number: u32, place: u32) -> Result<NetId, AllocError>
    requires bit { IsBit builder.old.variables (bit_at number place) }
    requires no_clock { ForSome builder.old.clock (λ c. bit_at number place ≢ c) }
    requires stands { Contains builder.old.names (bit_at number place) }
    requires few { length builder.old.names ≤ net_limit }
    ensures same { OnOk result (builder.new ≡ builder.old) }
    ensures found { IfOk result (λ net. slice_get builder.old.names net ≡ Some (bit_at number place)) }
{
    match builder.net(number, place) {
        Ok(net) => Ok(net),
        // No net is made, since it stands.
        Err(fault) => Err(only_memory(fault)),
    }
}

/// The nets of the original, where its variables behind the ports moved by so many.
pub(crate) fn kept_nets(
    alloc: Global,
    builder: &mut Builder,
    named: &Named,
    added: u32,
) -> Result<Vec<NetId>, AllocError>
    requires few { length named.now.variables + added < 2 ^ 32 }
    requires bits { All (λ bit. IsBit builder.old.variables (bit_at (new_number (ports_of named.now.variables) added bit.variable) bit.place)) named.now.names }
    requires no_clock { ForSome builder.old.clock (λ c. All (λ bit. bit_at (new_number (ports_of named.now.variables) added bit.variable) bit.place ≢ c) named.now.names) }
    requires stand { All (λ bit. Contains builder.old.names (bit_at (new_number (ports_of named.now.variables) added bit.variable) bit.place)) named.now.names }
    requires room { length builder.old.names ≤ net_limit }
    ensures same { OnOk result (builder.new ≡ builder.old) }
    ensures long { IfOk result (λ nets. length nets.items ≡ length named.now.names) }
    ensures nets { IfOk result (λ nets. (net : ℕ) → net < length named.now.names
        → slice_get builder.old.names (slice_index nets.items net) ≡ Some (bit_at (new_number (ports_of named.now.variables) added (name_of_net named.now net).variable) (name_of_net named.now net).place)) }
{
    let mut nets = Vec::new(alloc);
    let ports = named.ports();
    'nets: for net in 0..named.netlist().nets() {
        let bit = named.name(NetId(net));
        let number = moved_number(ports, added, bit.variable);
        nets.push(number_of(builder, number, bit.place)?)?;
    }
    Ok(nets)
}
