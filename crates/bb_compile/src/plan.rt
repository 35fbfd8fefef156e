//! What is made of a netlist, or why there is no plan for it.

ghost use Rattle.std.specs.Prelude.{◌≡◌, ◌<◌, ℕ, List, Option, length, IfOk, IsErrOf};
ghost use Rattle.bb_base.specs.Order.{IsOrder};
ghost use Rattle.bb_terms.specs.Cuts.{IsFirstWide};
ghost use Rattle.bb_read.specs.Ready.{IsReady};
ghost use Rattle.bb_choose.specs.Arranged.{AreInRange};
ghost use Rattle.bb_make.specs.Artifacts.{AreArtifacts};
ghost use Rattle.bb_read.specs.declared.refusal.Refusal.{Refusal as RefusalValue};
ghost use Rattle.bb_compile.specs.Causes.{IsNameOf, IsWideGate, IsNetlistRefused};

use bb_base::{Name, NetId, index_of};
use bb_choose::ChoiceFault;
use bb_code::Need;
use bb_make::{Artifacts, make};
use bb_net::Named;
use bb_netlist::Order;
use bb_read::{PlanRefusal, Refusal, Stop};
use bb_words::Settings;
use std::alloc::{AllocError, Global};

/// The name of a net, with its index where it is a bit of a vector.
fn net_name(alloc: Global, named: &Named, net: NetId) -> Result<(Name, Option<u32>), AllocError>
    requires { net < length named.now.names }
    ensures { IfOk result (λ found. IsNameOf named.now net found.0 found.1) }
{
    let bit = named.name(net);
    let (name, variable) = named.variable(bit.variable);
    let name = name.copy(alloc)?;
    match variable.range {
        None => Ok((name, None)),
        Some(range) => Ok((name, Some(index_of(range, bit.place)))),
    }
}

/// The refusal of a gate that is too wide.
fn wide_gate(
    alloc: Global,
    named: &Named,
    gate: u32,
    inputs: u32,
    width: u32,
) -> Result<PlanRefusal, AllocError>
    requires { IsFirstWide named.now.netlist.gates width gate inputs }
    ensures { IfOk result (λ refusal. (name : List ℕ) × (select : Option ℕ) × (refusal ≡ PlanRefusal.GateTooWide name select inputs width) × IsWideGate named.now name select inputs width) }
{
    let gate = &named.netlist().gates()[gate as usize];
    let (name, select) = net_name(alloc, named, gate.out)?;
    Ok(PlanRefusal::GateTooWide {
        name,
        select,
        inputs,
        width,
    })
}

/// The refusal of a source that has no column.
fn stuck_source(alloc: Global, named: &Named, max: u32, net: u32) -> Result<PlanRefusal, AllocError>
    requires { net < length named.now.names }
    ensures { IfOk result (λ refusal. (name : List ℕ) × (select : Option ℕ) × (refusal ≡ PlanRefusal.NoColumn max name select) × IsNameOf named.now net name select) }
{
    let (name, select) = net_name(alloc, named, NetId(net))?;
    Ok(PlanRefusal::NoColumn { max, name, select })
}

/// What is made of a netlist.
pub(crate) fn made_of(
    alloc: Global,
    named: &Named,
    order: &Order,
    settings: &Settings,
) -> Result<Artifacts, Stop>
    requires order { IsOrder named.now.netlist.gates order.now }
    requires ready { IsReady named.now }
    requires settings { AreInRange settings.now }
    ensures made { IfOk result (AreArtifacts named.now order.now settings.now) }
    ensures refused { (refusal : RefusalValue) → IsErrOf result (Stop.Refused refusal) → IsNetlistRefused named.now order.now settings.now refusal }
    ensures no_read { IsErrOf result Stop.Read → ⊥ }
{
    match make(alloc, named, order, settings) {
        Ok(made) => Ok(made),
        Err(
            ChoiceFault::GateTooWide {
                gate,
                inputs,
                width,
            },
        ) => Err(Stop::Refused(Refusal::Plan(wide_gate(alloc, named, gate, inputs, width)?))),
        Err(
            ChoiceFault::DegreeLimit {
                max,
                need: Need::Cells { cells },
            },
        ) => Err(Stop::Refused(Refusal::Plan(PlanRefusal::TooFewStates { max, cells }))),
        Err(
            ChoiceFault::DegreeLimit {
                max,
                need: Need::Source { source },
            },
        ) => Err(Stop::Refused(Refusal::Plan(stuck_source(alloc, named, max, source)?))),
        Err(ChoiceFault::CycleLimit { needed, limit }) => {
            Err(Stop::Refused(Refusal::Plan(PlanRefusal::TooManyCycles { limit, needed })))
        }
        Err(ChoiceFault::NoFullPeriod { degree }) => {
            Err(Stop::Refused(Refusal::Plan(PlanRefusal::NoFullPeriod { degree })))
        }
        Err(ChoiceFault::NoMemory) => Err(Stop::NoMemory),
    }
}
