//! All variables and nets of the written netlist, laid before the first gate.

ghost use Rattle.std.specs.Prelude.{◌≡◌, ◌+◌, ◌++◌, All, IfOk, OnOk, length};
ghost use Rattle.bb_base.specs.Variables.{ports_of};
ghost use Rattle.bb_base.specs.Building.{started};
ghost use Rattle.bb_base.specs.Named.{IsNamed};
ghost use Rattle.bb_terms.specs.Wires.{IsAdded};
ghost use Rattle.bb_written.specs.Written.{added_clock, added_ports};
ghost use Rattle.bb_lay.specs.Laying.{AddsAll, CanStand, IsLaid, AreKept, laid_variables, laid_bits, clock_or};

use crate::added::{add_clock, add_test_ports, add_wires};
use crate::lay::{add_own_ports, add_own_wires, kept_nets};
use bb_base::NetId;
use bb_net::{Builder, Named};
use bb_terms::Wire;
use std::alloc::{AllocError, Global};

/// How many ports are added.
fn count_added(named: &Named) -> u32
    ensures count { result ≡ length (added_clock named.now.clock ++ added_ports) }
    ensures named { IsNamed named.now }
{
    if named.clock().is_some() { 4 } else { 5 }
}

/// AddsAll all variables and nets, where these are the added wires.
fn lay_variables(
    alloc: Global,
    builder: &mut Builder,
    named: &Named,
    wires: &[Wire],
) -> Result<(), AllocError>
    requires started { builder.old ≡ started named.now.module_name }
    requires added { All IsAdded wires.now }
    requires stand { CanStand (laid_variables named.now wires.now) }
    ensures adds { OnOk result (AddsAll builder.old builder.new (laid_variables named.now wires.now) (laid_bits named.now wires.now) (clock_or named.now.clock (ports_of named.now.variables))) }
    ensures laid { OnOk result (IsLaid builder.new) }
{
    add_own_ports(alloc, builder, named)?;
    add_clock(alloc, builder, named)?;
    add_test_ports(alloc, builder)?;
    add_own_wires(alloc, builder, named)?;
    add_wires(alloc, builder, wires)?;
    Ok(())
}

/// AddsAll all variables and nets, where these are the added wires, and answers the nets of the original.
pub(crate) fn lay(
    alloc: Global,
    builder: &mut Builder,
    named: &Named,
    wires: &[Wire],
) -> Result<Vec<NetId>, AllocError>
    requires started { builder.old ≡ started named.now.module_name }
    requires added { All IsAdded wires.now }
    requires stand { CanStand (laid_variables named.now wires.now) }
    ensures adds { OnOk result (AddsAll builder.old builder.new (laid_variables named.now wires.now) (laid_bits named.now wires.now) (clock_or named.now.clock (ports_of named.now.variables))) }
    ensures laid { OnOk result (IsLaid builder.new) }
    ensures kept { IfOk result (λ kept. AreKept named.now builder.new kept.items) }
{
    lay_variables(alloc, builder, named, wires)?;
    let kept = kept_nets(alloc, builder, named, count_added(named))?;
    Ok(kept)
}
