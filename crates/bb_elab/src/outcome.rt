//! Elaboration: the netlist that a module denotes, or its first fault.

ghost use Rattle.std.specs.Prelude.{◌≡◌, ◌≢◌, ◌<◌, ◌≤◌, ◌^◌, IfOk, IfErr, OnOk, Ok, Err, None, Some, All, flat_map, length};
ghost use Rattle.bb_base.specs.Variables.{IsEntry, bit_count};
ghost use Rattle.bb_base.specs.Named.{IsNamed, net_text};
ghost use Rattle.bb_base.specs.Building.{net_limit};
ghost use Rattle.bb_base.specs.Net.{HasArity};
ghost use Rattle.bb_base.specs.Order.{IsOrder};
ghost use Rattle.bb_parse.specs.Sound.{IsSoundModule};
ghost use Rattle.bb_fault.specs.declared.fault.ElabFault.TheVariants.{NoMemory};
ghost use Rattle.bb_scope.specs.Names.{item_names};
ghost use Rattle.bb_scope.specs.Uses.{AreNext};
ghost use Rattle.bb_scope.specs.Variables.{variables};
ghost use Rattle.bb_scope.specs.Text.{text_fault};
ghost use Rattle.bb_drive.specs.Within.{IsWithin};
ghost use Rattle.bb_assemble.specs.Assembling.{ArePortsFirst};
ghost use Rattle.bb_meaning.specs.LoopNames.{loop_at, IsLoopIn};
ghost use Rattle.bb_meaning.specs.Outcome.{IsOutcome, work_in, variables_in, net_fault, denoted};
ghost use Rattle.bb_drive.specs.NamedOf.{named_of};

use bb_assemble::assemble;
use bb_base::{Name, NetId, Variable};
use bb_drive::{all_variables, clock_in, driven_nets, index_of};
use bb_fault::{ElabFault, Work};
use bb_gates::work_of;
use bb_net::Named;
use bb_netlist::{Order, OrderFault, find_order};
use bb_parse::Module;
use bb_scope::Scope;
use bb_targets::twice_fault;
use bb_width::{Bound, checked};
use indexmap::IndexMap;
use std::alloc::{AllocError, Global};

/// The fault of a loop of so many nets, of which this is the first.
fn loop_fault(
    alloc: Global,
    named: &Named,
    net: NetId,
    count: usize,
) -> Result<ElabFault, AllocError>
    requires { net < length named.now.names }
    ensures { IfOk result (λ fault. fault ≡ loop_at (net_text named.now net) count) }
{
    let bit = named.name(net);
    let (name, variable) = named.variable(bit.variable);
    Ok(ElabFault::Loop {
        name: name.copy(alloc)?,
        select: index_of(variable.range, bit.place),
        count: u32::try_from(count).unwrap_or(u32::MAX),
    })
}

/// The order of the gates, or the fault of a loop.
fn ordered(alloc: Global, named: &Named) -> Result<Order, ElabFault>
    ensures order { IfOk result (λ order. IsOrder named.now.netlist.gates order) }
    ensures fault { IfErr result (λ fault. fault ≢ NoMemory → IsLoopIn named.now fault) }
{
    match find_order(alloc, named.netlist()) {
        Ok(order) => Ok(order),
        Err(OrderFault::Loop { nets }) => Err(loop_fault(alloc, named, nets[0], nets.len())?),
        Err(OrderFault::NoMemory) => Err(ElabFault::NoMemory),
    }
}

/// The named netlist over these variables and this work, or the first fault of drivers and clocks.
fn wired(
    alloc: Global,
    name: Name,
    vars: IndexMap<Name, Variable>,
    work: &Work,
) -> Result<Named, ElabFault>
    requires within { IsWithin work.now }
    requires entries { All IsEntry vars.entries }
    requires ports_first { ArePortsFirst vars.entries }
    requires total { bit_count vars.entries ≡ work.now.fresh }
    requires room { work.now.fresh ≤ net_limit }
    requires arities { All HasArity work.now.gates }
    ensures named { IfOk result (λ named. named ≡ named_of name vars.entries work.now) }
    ensures valid { OnOk result (IsNamed (named_of name vars.entries work.now)) }
    ensures fine { OnOk result (net_fault vars.entries work.now ≡ None) }
    ensures fault { IfErr result (λ fault. fault ≢ NoMemory → net_fault vars.entries work.now ≡ Some fault) }
{
    let bits = driven_nets(alloc, &vars, work)?;
    let clock = clock_in(alloc, &vars, work, &bits)?;
    Ok(assemble(alloc, name, vars, work, &bits, &clock)?)
}

/// All variables of a module whose text was checked, and what its items make.
fn made_in(
    alloc: Global,
    module: &Module,
    bound: Bound,
) -> Result<(IndexMap<Name, Variable>, Work), AllocError>
    requires scope { bound.scope ≡ variables «module».now }
    requires uses { AreNext bound.scope (flat_map item_names «module».now.items) bound.uses.items }
    requires room { (work_in «module».now).fresh < 2 ^ 32 }
    ensures vars { IfOk result (λ made. made.0.entries ≡ variables_in «module».now) }
    ensures work { IfOk result (λ made. made.1 ≡ work_in «module».now) }
{
    let Bound { scope, uses } = bound;
    let work = work_of(alloc, &scope, &uses, module.items.as_slice())?;
    let vars = all_variables(alloc, scope.into_table(), &work)?;
    Ok((vars, work))
}

/// The fault of the first bit of a module's variables that has two drivers, found before any gate is made.
///
/// The count of bits and made nets doesn't bound how often bits are driven; once no bit of a variable has two drivers, it does.
fn driven_once(
    alloc: Global,
    own: bool,
    module: &Module,
    scope: &Scope,
    uses: &[usize],
) -> Result<(), ElabFault>
    requires scope { scope.now ≡ variables «module».now }
    requires uses { AreNext scope.now (flat_map item_names «module».now.items) uses.now }
    requires fine { text_fault own «module».now ≡ None }
    ensures { IfErr result (λ fault. fault ≢ NoMemory → net_fault (variables_in «module».now) (work_in «module».now) ≡ Some fault) }
{
    twice_fault(alloc, scope, uses, module.items.as_slice())
}

/// The named netlist of a module whose text was checked, or the first fault of drivers and clocks.
fn named_in(alloc: Global, own: bool, module: &Module, bound: Bound) -> Result<Named, ElabFault>
    requires sound { IsSoundModule «module».now }
    requires scope { bound.scope ≡ variables «module».now }
    requires uses { AreNext bound.scope (flat_map item_names «module».now.items) bound.uses.items }
    requires fine { text_fault own «module».now ≡ None }
    ensures named { IfOk result (λ named. named ≡ denoted «module».now) }
    ensures valid { OnOk result (IsNamed (denoted «module».now)) }
    ensures fine { OnOk result (net_fault (variables_in «module».now) (work_in «module».now) ≡ None) }
    ensures fault { IfErr result (λ fault. fault ≢ NoMemory → net_fault (variables_in «module».now) (work_in «module».now) ≡ Some fault) }
{
    driven_once(alloc, own, module, &bound.scope, &bound.uses)?;
    let (vars, work) = made_in(alloc, module, bound)?;
    let name = module.name.copy(alloc)?;
    wired(alloc, name, vars, &work)
}

/// The named netlist that a module denotes and the order of its gates, or the first fault. `own` allows names that begin with
/// `bt_` and the larger limit on bits.
///
/// The module is one of a text: its names are names, and its numbers are in their ranges.
pub fn elaborate(alloc: Global, module: &Module, own: bool) -> Result<(Named, Order), ElabFault>
    requires { IsSoundModule «module».now }
    ensures named { IfOk result (λ found. IsOutcome own «module».now (Ok found.0)) }
    ensures order { IfOk result (λ found. IsOrder found.0.netlist.gates found.1) }
    ensures fault { IfErr result (λ fault. fault ≢ NoMemory → IsOutcome own «module».now (Err fault)) }
{
    let bound = checked(alloc, own, module)?;
    let named = named_in(alloc, own, module, bound)?;
    let order = ordered(alloc, &named)?;
    Ok((named, order))
}
