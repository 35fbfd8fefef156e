//! The job from a netlist to its texts.

ghost use Rattle.std.specs.Prelude.{◌≡◌, ◌≤◌, ℕ, IfOk, IsErrOf};
ghost use Rattle.bb_base.specs.Variables.{bit_count};
ghost use Rattle.bb_base.specs.Order.{IsOrder};
ghost use Rattle.bb_terms.specs.Cuts.{IsFirstWide};
ghost use Rattle.bb_terms.specs.Valid.{IsValidFor};
ghost use Rattle.bb_ctl.specs.OwnNames.{HasOwnNames};
ghost use Rattle.bb_code.specs.declared.fault.Need.{Need as NeedValue};
ghost use Rattle.bb_words.specs.declared.command.Settings.{Settings as SettingsValue};
ghost use Rattle.bb_choose.specs.Arranged.{AreInRange};
ghost use Rattle.bb_choose.specs.Choice.{OfArranged, LacksDegree, LacksCycles, LacksMask};
ghost use Rattle.bb_forms.specs.ScheduleText.{test_cycles};
ghost use Rattle.bb_make.specs.Artifacts.{AreArtifacts};
ghost use Rattle.bb_make.specs.Bounds.{IsPlanWithin};

use crate::artifacts::Artifacts;
use crate::checked::checked;
use crate::summary::summary_of;
use crate::texts::{certificate_written, netlist_written, schedule_written, signatures_written};
use bb_choose::{ChoiceFault, Settings, choose, chosen_plans_are_valid};
use bb_net::{Named, nets_are_bits};
use bb_netlist::Order;
use bb_normal::mirrors_itself;
use bb_selftest::mirrors_are_self_tests;
use bb_terms::Valid;
use std::alloc::{AllocError, Global};

/// The texts of a valid plan, and what is counted.
fn artifacts_of(
    alloc: Global,
    named: &Named,
    order: &Order,
    valid: &Valid,
    cycles: u64,
) -> Result<Artifacts, AllocError>
    requires order { IsOrder named.now.netlist.gates order.now }
    requires valid { IsValidFor named.now.netlist valid.now }
    requires own { HasOwnNames named.now }
    requires few { bit_count named.now.variables ≤ 2097152 }
    requires cycles { cycles ≡ test_cycles valid.now.plan }
    ensures { IfOk result (λ made. (settings : SettingsValue) → IsPlanWithin named.now.netlist order.now settings valid.now.plan → AreArtifacts named.now order.now settings made) }
{
    nets_are_bits();
    mirrors_itself();
    mirrors_are_self_tests();
    let netlist = named.netlist();
    let plan = valid.plan();
    let summary = summary_of(netlist, plan, cycles);
    let text = netlist_written(alloc, named, valid)?;
    let schedule = schedule_written(alloc, plan)?;
    let signatures = signatures_written(alloc, netlist, order, valid)?;
    let certificate = certificate_written(alloc, valid)?;
    Ok(Artifacts {
        netlist: text,
        schedule,
        signatures,
        certificate,
        summary,
    })
}

/// Makes the self-test of a netlist of at most 2,097,152 bits, as texts: chooses a plan, weaves its test in, and finds its signatures.
///
/// A refusal is the first of four causes, in the order of `ChoiceFault`. The source that a degree lacks a column for is named by its net.
pub fn make(
    alloc: Global,
    named: &Named,
    order: &Order,
    settings: &Settings,
) -> Result<Artifacts, ChoiceFault>
    requires order { IsOrder named.now.netlist.gates order.now }
    requires own { HasOwnNames named.now }
    requires few { bit_count named.now.variables ≤ 2097152 }
    requires settings { AreInRange settings.now }
    ensures made { IfOk result (AreArtifacts named.now order.now settings.now) }
    ensures gate { (gate inputs width : ℕ) → IsErrOf result (ChoiceFault.GateTooWide gate inputs width) → (width ≡ settings.now.width) × IsFirstWide named.now.netlist.gates width gate inputs }
    ensures degree { (max : ℕ) (need : NeedValue) → IsErrOf result (ChoiceFault.DegreeLimit max need) → OfArranged named.now.netlist order.now settings.now (λ grouped. LacksDegree settings.now grouped max need) }
    ensures limit { (needed limit : ℕ) → IsErrOf result (ChoiceFault.CycleLimit needed limit) → OfArranged named.now.netlist order.now settings.now (λ grouped. LacksCycles settings.now grouped needed limit) }
    ensures period { (cells : ℕ) → IsErrOf result (ChoiceFault.NoFullPeriod cells) → OfArranged named.now.netlist order.now settings.now (λ grouped. LacksMask settings.now grouped cells) }
{
    nets_are_bits();
    chosen_plans_are_valid();
    let netlist = named.netlist();
    let chosen = match choose(alloc, netlist, order, settings) {
        Ok(chosen) => chosen,
        Err(fault) => return Err(fault),
    };
    let cycles = chosen.cycles;
    let valid = checked(alloc, netlist, order, chosen.plan)?;
    let made = artifacts_of(alloc, named, order, &valid, cycles)?;
    Ok(made)
}
