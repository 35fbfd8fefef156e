//! The variables of a sample, and their nets.

ghost use Rattle.std.specs.Prelude.{◌≡◌, ◌≤◌, ◌<◌, ◌+◌, ◌∷◌, [], true, All, IfOk, OnOk, None, codes, length};
ghost use Rattle.std.specs.Option.{ForSome};
ghost use Rattle.bb_base.specs.Variables.{IsBit, is_port, bit_at};
ghost use Rattle.bb_base.specs.Building.{started, with_variable, net_limit, IsEarlier};
ghost use Rattle.bb_sample.specs.Sample.{vector_of, bits_of, is_clocked};
ghost use Rattle.bb_sample.specs.Laying.{with_more_bits, with_vector, CanAdd, CanMake, begun, with_ports, with_states, laid};

use crate::nets::{flop_count, input_count, is_clocked, output_count};
use bb_base::{Name, NetFault, Role};
use bb_net::Builder;
use std::alloc::{AllocError, Global};

/// Want of memory, where a builder's fault is that.
pub(crate) fn out_of_memory(fault: NetFault) -> AllocError
    requires { fault ≡ NetFault.NoMemory }
{
    match fault {
        NetFault::NoMemory => AllocError,
        _ => unreachable!(),
    }
}

/// Adds a vector, and answers its number. A port's bits become nets at once.
fn declare(
    alloc: Global,
    builder: &mut Builder,
    name: &[u8],
    role: Role,
    width: u32,
) -> Result<u32, AllocError>
    requires { CanAdd builder.old name.now role width }
    ensures added { OnOk result (builder.new ≡ with_variable builder.old name.now (vector_of role width) None) }
    ensures number { IfOk result (λ number. number ≡ length builder.old.variables) }
{
    let name = Name::new(alloc, name)?;
    match builder.variable(name, Some((0, width - 1)), role, None) {
        Ok(number) => Ok(number),
        // The name is new, and there is room for the nets.
        Err(fault) => Err(out_of_memory(fault)),
    }
}

/// Makes a net of a bit that stands behind those of all nets.
fn add_bit(builder: &mut Builder, number: u32, place: u32) -> Result<(), AllocError>
    requires bit { IsBit builder.old.variables (bit_at number place) }
    requires no_clock { ForSome builder.old.clock (λ c. c.variable < number) }
    requires earlier { All (IsEarlier number place) builder.old.names }
    requires room { length builder.old.names < net_limit }
    ensures { OnOk result (builder.new ≡ with_more_bits builder.old (bit_at number place ∷ [])) }
{
    match builder.net(number, place) {
        Ok(_) => Ok(()),
        // There are no more nets than bits so far.
        Err(fault) => Err(out_of_memory(fault)),
    }
}

/// Makes nets of so many bits of a variable, from left to right.
///
/// After an error some of them may be nets.
fn add_bits(builder: &mut Builder, number: u32, width: u32) -> Result<(), AllocError>
    requires { CanMake builder.old number width }
    ensures { OnOk result (builder.new ≡ with_more_bits builder.old (bits_of number width)) }
{
    'places: for place in 0..width {
        add_bit(builder, number, place)?;
    }
    Ok(())
}

/// Adds a vector of ports.
fn add_port(
    alloc: Global,
    builder: &mut Builder,
    name: &[u8],
    role: Role,
    width: u32,
) -> Result<(), AllocError>
    requires port { is_port role ≡ true }
    requires can { CanAdd builder.old name.now role width }
    ensures { OnOk result (builder.new ≡ with_vector builder.old name.now role width) }
{
    declare(alloc, builder, name, role, width)?;
    Ok(())
}

/// Adds a vector of wires, all of which are nets.
///
/// After an error some of them may be.
fn add_wires(
    alloc: Global,
    builder: &mut Builder,
    name: &[u8],
    width: u32,
) -> Result<(), AllocError>
    requires { CanAdd builder.old name.now Role.Wire width }
    ensures { OnOk result (builder.new ≡ with_vector builder.old name.now Role.Wire width) }
{
    let number = declare(alloc, builder, name, Role::Wire, width)?;
    add_bits(builder, number, width)?;
    Ok(())
}

/// Adds the clock to an empty module.
fn add_clock(alloc: Global, builder: &mut Builder) -> Result<(), AllocError>
    requires { builder.old ≡ started (codes "sample") }
    ensures { OnOk result (builder.new ≡ begun true) }
{
    let name = Name::new(alloc, b"clk")?;
    match builder.variable(name, None, Role::Input, Some(0)) {
        Ok(_) => Ok(()),
        // There is no other name, and a clock is no net.
        Err(fault) => Err(out_of_memory(fault)),
    }
}

/// A sample's module, with its clock where it has one.
fn begin(alloc: Global, clocked: bool) -> Result<Builder, AllocError>
    ensures { IfOk result (λ builder. builder ≡ begun clocked) }
{
    let name = Name::new(alloc, b"sample")?;
    let mut builder = Builder::new(alloc, name)?;
    if !clocked {
        return Ok(builder);
    }
    add_clock(alloc, &mut builder)?;
    Ok(builder)
}

/// Adds the inputs and the outputs.
fn add_ports(
    alloc: Global,
    builder: &mut Builder,
    clocked: bool,
    number: u32,
) -> Result<(), AllocError>
    requires some { 1 ≤ number }
    requires begun { builder.old ≡ begun clocked }
    ensures { OnOk result (builder.new ≡ with_ports clocked number) }
{
    add_port(alloc, builder, b"i", Role::Input, input_count())?;
    add_port(alloc, builder, b"o", Role::Output, output_count(number))?;
    Ok(())
}

/// Adds the bits of the flip-flops, where there are any.
fn add_states(
    alloc: Global,
    builder: &mut Builder,
    clocked: bool,
    number: u32,
) -> Result<(), AllocError>
    requires few { number ≤ 65536 }
    requires clocked { clocked ≡ is_clocked number }
    requires ports { builder.old ≡ with_ports clocked number }
    ensures { OnOk result (builder.new ≡ with_states clocked number) }
{
    if !clocked {
        return Ok(());
    }
    add_wires(alloc, builder, b"q", flop_count(number))?;
    Ok(())
}

/// A builder with all variables and nets of a sample, before its first gate.
pub(crate) fn lay(alloc: Global, number: u32) -> Result<Builder, AllocError>
    requires some { 1 ≤ number }
    requires few { number ≤ 65536 }
    ensures { IfOk result (λ builder. builder ≡ laid (is_clocked number) number) }
{
    let clocked = is_clocked(number);
    let mut builder = begin(alloc, clocked)?;
    add_ports(alloc, &mut builder, clocked, number)?;
    add_states(alloc, &mut builder, clocked, number)?;
    add_wires(alloc, &mut builder, b"g", number)?;
    Ok(builder)
}
