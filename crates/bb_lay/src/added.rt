//! The added variables of the written netlist: the clock where there is none, the ports of the test, and the added wires.

ghost use Rattle.std.specs.Prelude.{◌≡◌, ◌≤◌, true, ◌++◌, ◌∷◌, [], All, IfOk, OnOk, length, map, decimal};
ghost use Rattle.bb_base.specs.Name.{IsNameByte};
ghost use Rattle.bb_base.specs.Variables.{is_port};
ghost use Rattle.bb_terms.specs.Wires.{symbol_name, IsAdded};
ghost use Rattle.bb_written.specs.Written.{scalar_entry, inner_entry, added_clock, added_ports};
ghost use Rattle.bb_lay.specs.Laying.{AddsAll, CanStand, IsLaid, scalar_bits, clock_or};

use crate::declare::{add_bit, declare};
use bb_base::{Name, Role, Variable};
use bb_net::{Builder, Named};
use bb_terms::Wire;
use std::alloc::{AllocError, Global};

/// A name that ends with a number.
fn numbered(alloc: Global, front: &str, number: u32) -> Result<Name, AllocError>
    requires short { length front.now ≤ 8 }
    requires plain { All IsNameByte front.now }
    ensures { IfOk result (λ name. name ≡ front.now ++ decimal number) }
{
    let text = format!(in alloc; "{front}{number}")?;
    Name::new(alloc, text.as_bytes())
}

/// The name of an added net.
fn name_of(alloc: Global, wire: Wire) -> Result<Name, AllocError>
    requires { IsAdded wire }
    ensures { IfOk result (λ name. name ≡ symbol_name wire) }
{
    let (front, number) = wire.label();
    match number {
        None => Name::new(alloc, front.as_bytes()),
        Some(number) => numbered(alloc, front, number),
    }
}

/// AddsAll the variable of an added port, which is its net's name.
fn add_port(alloc: Global, builder: &mut Builder, wire: Wire, role: Role) -> Result<(), AllocError>
    requires added { IsAdded wire }
    requires port { is_port role ≡ true }
    requires laid { IsLaid builder.old }
    requires stand { CanStand (builder.old.variables ++ scalar_entry role (symbol_name wire) ∷ []) }
    ensures adds { OnOk result (AddsAll builder.old builder.new (scalar_entry role (symbol_name wire) ∷ []) (scalar_bits (length builder.old.variables) 1) builder.old.clock) }
    ensures laid { OnOk result (IsLaid builder.new) }
{
    let name = name_of(alloc, wire)?;
    declare(builder, name, Variable { range: None, role }, None)?;
    Ok(())
}

/// AddsAll a clock where there is none.
pub(crate) fn add_clock(
    alloc: Global,
    builder: &mut Builder,
    named: &Named,
) -> Result<(), AllocError>
    requires laid { IsLaid builder.old }
    requires clock { builder.old.clock ≡ named.now.clock }
    requires stand { CanStand (builder.old.variables ++ added_clock named.now.clock) }
    ensures adds { OnOk result (AddsAll builder.old builder.new (added_clock named.now.clock) [] (clock_or named.now.clock (length builder.old.variables))) }
    ensures laid { OnOk result (IsLaid builder.new) }
{
    if named.clock().is_some() {
        return Ok(());
    }
    let name = Name::new(alloc, b"bt_clk")?;
    let role = Role::Input;
    declare(builder, name, Variable { range: None, role }, Some(0))?;
    Ok(())
}

/// AddsAll the ports of the test.
pub(crate) fn add_test_ports(alloc: Global, builder: &mut Builder) -> Result<(), AllocError>
    requires laid { IsLaid builder.old }
    requires stand { CanStand (builder.old.variables ++ added_ports) }
    ensures adds { OnOk result (AddsAll builder.old builder.new added_ports (scalar_bits (length builder.old.variables) 4) builder.old.clock) }
    ensures laid { OnOk result (IsLaid builder.new) }
{
    add_port(alloc, builder, Wire::Test, Role::Input)?;
    add_port(alloc, builder, Wire::Init, Role::Input)?;
    add_port(alloc, builder, Wire::So, Role::Output)?;
    add_port(alloc, builder, Wire::Done, Role::Output)
}

/// AddsAll the variable of an added wire, and its net.
fn add_wire(alloc: Global, builder: &mut Builder, wire: Wire) -> Result<(), AllocError>
    requires added { IsAdded wire }
    requires laid { IsLaid builder.old }
    requires stand { CanStand (builder.old.variables ++ inner_entry wire ∷ []) }
    ensures adds { OnOk result (AddsAll builder.old builder.new (inner_entry wire ∷ []) (scalar_bits (length builder.old.variables) 1) builder.old.clock) }
    ensures laid { OnOk result (IsLaid builder.new) }
{
    let name = name_of(alloc, wire)?;
    let role = Role::Wire;
    let number = declare(builder, name, Variable { range: None, role }, None)?;
    add_bit(builder, number, 0)?;
    Ok(())
}

/// AddsAll the variables of added wires, each with its net.
pub(crate) fn add_wires(
    alloc: Global,
    builder: &mut Builder,
    wires: &[Wire],
) -> Result<(), AllocError>
    requires added { All IsAdded wires.now }
    requires laid { IsLaid builder.old }
    requires stand { CanStand (builder.old.variables ++ map inner_entry wires.now) }
    ensures adds { OnOk result (AddsAll builder.old builder.new (map inner_entry wires.now) (scalar_bits (length builder.old.variables) (length wires.now)) builder.old.clock) }
    ensures laid { OnOk result (IsLaid builder.new) }
{
    'wires: for wire in wires {
        add_wire(alloc, builder, *wire)?;
    }
    Ok(())
}
