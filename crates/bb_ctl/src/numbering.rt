//! The nets of symbols, and rows as gates of a builder.

ghost use Rattle.std.specs.Prelude.{◌≡◌, ◌<◌, ◌+◌, ◌-◌, ◌^◌, ◌∷◌, [], ℕ, None, Some, OnOk, IfOk, All, length, map};
ghost use Rattle.std.specs.List.{AllByRecursion};
ghost use Rattle.bb_base.specs.Net.{renamed_gate, HasArity};
ghost use Rattle.bb_base.specs.Named.{lookup_of};
ghost use Rattle.bb_base.specs.Building.{with_gates};
ghost use Rattle.bb_terms.specs.Wires.{symbol_name};
ghost use Rattle.bb_terms.specs.Numbering.{kept_of, found_net, net_at, wires_in, HasWire, HasDistinctNets};

use crate::row::Row;
use bb_base::{Name, NetFault, NetId};
use bb_net::Builder;
use bb_terms::Wire;
use std::alloc::{AllocError, Global};

/// The name of an added symbol.
pub fn name_of(alloc: Global, wire: Wire) -> Result<Name, AllocError>
    requires added { kept_of wire ≡ None }
    ensures { IfOk result (λ name. name ≡ symbol_name wire) }
{
    let (front, number) = wire.label();
    match number {
        None => Name::new(alloc, front.as_bytes()),
        Some(number) => {
            let text = format!(in alloc; "{front}{number}")?;
            Name::new(alloc, text.as_bytes())
        }
    }
}

/// Want of memory, which is all that a builder lacks here.
fn out_of_memory(fault: NetFault) -> AllocError
    requires { fault ≡ NetFault.NoMemory }
{
    match fault {
        NetFault::NoMemory => AllocError,
        _ => unreachable!(),
    }
}

/// The net of the variable with this name.
fn net_called(builder: &mut Builder, name: &Name) -> Result<NetId, AllocError>
    requires distinct { HasDistinctNets builder.old }
    requires stands { (net : ℕ) × (found_net builder.old (lookup_of name.now builder.old) ≡ Some net) }
    ensures net { IfOk result (λ net. found_net builder.old (lookup_of name.now builder.old) ≡ Some net) }
    ensures below { IfOk result (λ net. net < length builder.old.names) }
    ensures same { builder.new ≡ builder.old }
{
    let Some(variable) = builder.lookup(name) else {
        unreachable!();
    };
    match builder.net(variable, 0) {
        Ok(net) => Ok(net),
        Err(fault) => Err(out_of_memory(fault)),
    }
}

/// The net of a symbol: an original's net is found by `kept`, an added one by its name.
pub fn net_of(
    alloc: Global,
    builder: &mut Builder,
    kept: &[NetId],
    wire: Wire,
) -> Result<NetId, AllocError>
    requires distinct { HasDistinctNets builder.old }
    requires stands { HasWire builder.old kept.now wire }
    ensures net { IfOk result (λ net. net ≡ net_at builder.old kept.now wire) }
    ensures below { IfOk result (λ net. net < length builder.old.names) }
    ensures same { builder.new ≡ builder.old }
{
    match wire.kept() {
        Some(net) => Ok(kept[net as usize]),
        None => {
            let name = name_of(alloc, wire)?;
            net_called(builder, &name)
        }
    }
}

/// The nets of symbols.
pub(crate) fn nets_of(
    alloc: Global,
    builder: &mut Builder,
    kept: &[NetId],
    wires: &[Wire],
) -> Result<Vec<NetId>, AllocError>
    requires distinct { HasDistinctNets builder.old }
    requires stands { AllByRecursion (HasWire builder.old kept.now) wires.now }
    ensures nets { IfOk result (λ nets. nets.items ≡ map (net_at builder.old kept.now) wires.now) }
    ensures below { IfOk result (λ nets. All (λ net. net < length builder.old.names) nets.items) }
    ensures same { builder.new ≡ builder.old }
{
    let mut nets = Vec::new(alloc);
    'wires: for wire in wires {
        nets.push(net_of(alloc, builder, kept, *wire)?)?;
    }
    Ok(nets)
}

/// Adds the gate of a row.
fn add_row(
    alloc: Global,
    builder: &mut Builder,
    kept: &[NetId],
    row: &Row,
) -> Result<(), AllocError>
    requires distinct { HasDistinctNets builder.old }
    requires stands { AllByRecursion (HasWire builder.old kept.now) (row.now.out ∷ row.now.ins) }
    requires arity { HasArity row.now }
    requires few { length builder.old.netlist.gates < 2 ^ 32 - 1 }
    ensures { OnOk result (builder.new ≡ with_gates builder.old (renamed_gate (net_at builder.old kept.now) row.now ∷ [])) }
{
    let out = net_of(alloc, builder, kept, row.out)?;
    let ins = nets_of(alloc, builder, kept, row.ins.as_slice())?;
    match builder.gate(row.op, out, &ins) {
        Ok(()) => Ok(()),
        Err(fault) => Err(out_of_memory(fault)),
    }
}

/// Adds the gates of these rows.
///
/// After an error some of them may stand.
pub fn add_rows(
    alloc: Global,
    builder: &mut Builder,
    kept: &[NetId],
    rows: &[Row],
) -> Result<(), AllocError>
    requires distinct { HasDistinctNets builder.old }
    requires stands { AllByRecursion (HasWire builder.old kept.now) (wires_in rows.now) }
    requires arities { AllByRecursion HasArity rows.now }
    requires few { length builder.old.netlist.gates + length rows.now < 2 ^ 32 }
    ensures { OnOk result (builder.new ≡ with_gates builder.old (map (renamed_gate (net_at builder.old kept.now)) rows.now)) }
{
    'rows: for row in rows {
        add_row(alloc, builder, kept, row)?;
    }
    Ok(())
}
