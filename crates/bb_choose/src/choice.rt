//! The plan that is chosen for a netlist.

ghost use Rattle.std.specs.Prelude.{◌≡◌, ◌+◌, ◌*◌, ◌^◌, ◌≤◌, ℕ, length, nat_eq, IfOk, OnOk, IfErr, IsErrOf};
ghost use Rattle.std.specs.List.{AllByRecursion};
ghost use Rattle.std.specs.Set.{distinct_count};
ghost use Rattle.bb_base.specs.Firsts.{IsLeast};
ghost use Rattle.bb_base.specs.Net.{driven};
ghost use Rattle.bb_base.specs.Order.{IsOrder};
ghost use Rattle.bb_terms.specs.Cuts.{IsFirstWide};
ghost use Rattle.bb_code.specs.declared.fault.Need.{Need as NeedValue};
ghost use Rattle.bb_code.specs.Segments.{sources_of};
ghost use Rattle.bb_code.specs.Columns.{AreAllColumns};
ghost use Rattle.bb_choose.specs.Arranged.{AreInRange, segments_of, source_count, cell_count};
ghost use Rattle.bb_choose.specs.Choice.{IsDegreeFor, IsPlanOf, IsChosenPlan, OfArranged, LacksDegree, LacksCycles, LacksMask, cycle_count};
ghost use Rattle.bb_choose.specs.Coding.{AreSourcesOf, CanTakeColumns};

use crate::ChoiceFault;
use crate::arranged::arranged;
use crate::coding::coded_registers;
use crate::masks::all_masks;
use crate::sources::{Sources, sources_in};
use bb_base::Netlist;
use bb_code::{Coded, DegreeFault, Need, degree};
use bb_netlist::Order;
use bb_reg::{Grouped, sessions};
use bb_segment::CutFault;
use bb_terms::Plan;
use bb_words::Settings;
use std::alloc::Global;

/// A plan, and how many cycles its test takes.
#[derive(Drop)]
pub struct Chosen {
    pub plan: Plan,
    pub cycles: u64,
}

/// The least degree of registers and its columns. Where no degree will do, a source that is stuck is named by its net.
fn code_of(
    alloc: Global,
    grouped: &Grouped,
    sources: &Sources,
    settings: &Settings,
) -> Result<Coded, DegreeFault>
    requires sources { AreSourcesOf grouped.now sources.now.nets.items sources.now.numbers.items (sources_of sources.now.segments.items) }
    requires cells { length grouped.now.leaves ≡ cell_count grouped.now }
    requires few { cell_count grouped.now ≤ 4194304 }
    requires settings { AreInRange settings.now }
    ensures degree { IfOk result (λ coded. IsLeast (IsDegreeFor settings.now grouped.now) coded.degree) }
    ensures columns { IfOk result (λ coded. AreAllColumns coded.degree (segments_of grouped.now) (source_count grouped.now) coded.columns.items) }
    ensures limit { (max : ℕ) (need : NeedValue) → IsErrOf result (DegreeFault.DegreeLimit max need) → LacksDegree settings.now grouped.now max need }
{
    let count = sources.nets.len() as u32;
    let cells = grouped.leaves.len() as u32;
    match degree(
        alloc,
        &sources.segments,
        count,
        cells,
        settings.min_degree,
        settings.max_degree,
    ) {
        Ok(coded) => Ok(coded),
        Err(
            DegreeFault::DegreeLimit {
                max,
                need: Need::Source { source },
            },
        ) => {
            let net = sources.nets[source as usize];
            Err(DegreeFault::DegreeLimit {
                max,
                need: Need::Source { source: net.0 },
            })
        }
        Err(
            DegreeFault::DegreeLimit {
                max,
                need: Need::Cells { cells },
            },
        ) => Err(DegreeFault::DegreeLimit {
            max,
            need: Need::Cells { cells },
        }),
        Err(DegreeFault::NoMemory) => Err(DegreeFault::NoMemory),
    }
}

/// The cycles of a test of so many sessions at a degree.
fn cycles_of(sessions: usize, degree: u32) -> u64
    requires sessions { sessions ≤ 4194304 }
    requires degree { degree ≤ 20 }
    ensures { result ≡ 1 + 2 * sessions * 2 ^ degree }
{
    1 + 2 * sessions as u64 * (1u64 << degree)
}

/// The plan of the registers that are chosen for a netlist of so many nets.
fn plan_of(
    alloc: Global,
    nets: u32,
    grouped: &Grouped,
    settings: &Settings,
) -> Result<Chosen, ChoiceFault>
    requires ready { CanTakeColumns nets grouped.now }
    requires settings { AreInRange settings.now }
    ensures plan { IfOk result (λ chosen. IsPlanOf settings.now grouped.now chosen.plan) }
    ensures cycles { IfOk result (λ chosen. chosen.cycles ≡ cycle_count grouped.now chosen.plan.degree) }
    ensures within { IfOk result (λ chosen. chosen.cycles ≤ settings.now.max_cycles) }
    ensures gate { (gate inputs width : ℕ) → IsErrOf result (ChoiceFault.GateTooWide gate inputs width) → ⊥ }
    ensures degree { (max : ℕ) (need : NeedValue) → IsErrOf result (ChoiceFault.DegreeLimit max need) → LacksDegree settings.now grouped.now max need }
    ensures limit { (needed limit : ℕ) → IsErrOf result (ChoiceFault.CycleLimit needed limit) → LacksCycles settings.now grouped.now needed limit }
    ensures period { (cells : ℕ) → IsErrOf result (ChoiceFault.NoFullPeriod cells) → LacksMask settings.now grouped.now cells }
{
    let sources = sources_in(alloc, nets, grouped)?;
    let coded = match code_of(alloc, grouped, &sources, settings) {
        Ok(coded) => coded,
        Err(DegreeFault::DegreeLimit { max, need }) => {
            return Err(ChoiceFault::DegreeLimit { max, need });
        }
        Err(DegreeFault::NoMemory) => return Err(ChoiceFault::NoMemory),
    };
    let sessions = sessions(alloc, grouped)?;
    let cycles = cycles_of(sessions.len(), coded.degree);
    if cycles > settings.max_cycles {
        return Err(ChoiceFault::CycleLimit {
            needed: cycles,
            limit: settings.max_cycles,
        });
    }
    let masks = match all_masks(coded.degree, &grouped.registers) {
        Ok(masks) => masks,
        Err(fault) => {
            return Err(ChoiceFault::NoFullPeriod {
                degree: fault.degree,
            });
        }
    };
    let registers = coded_registers(
        alloc,
        &sources.numbers,
        &coded.columns,
        &masks.registers,
        &grouped.registers,
    )?;
    Ok(Chosen {
        plan: Plan {
            width: settings.width,
            degree: coded.degree,
            mask: masks.degree,
            registers,
            sessions,
        },
        cycles,
    })
}

/// The plan that is chosen for a netlist of at most 2,097,152 nets, with the cycles that its test takes.
pub fn choose(
    alloc: Global,
    netlist: &Netlist,
    order: &Order,
    settings: &Settings,
) -> Result<Chosen, ChoiceFault>
    requires order { IsOrder netlist.now.gates order.now }
    requires few { length (driven netlist.now) ≤ 2097152 }
    requires settings { AreInRange settings.now }
    ensures chosen { IfOk result (λ chosen. IsChosenPlan netlist.now order.now settings.now chosen.plan) }
    ensures cycles { IfOk result (λ chosen. chosen.cycles ≡ 1 + 2 * length chosen.plan.sessions * 2 ^ chosen.plan.degree) }
    ensures within { IfOk result (λ chosen. chosen.cycles ≤ settings.now.max_cycles) }
    ensures narrow { OnOk result (AllByRecursion (λ g. distinct_count nat_eq g.ins ≤ settings.now.width) netlist.now.gates) }
    ensures gate { (gate inputs width : ℕ) → IsErrOf result (ChoiceFault.GateTooWide gate inputs width) → (width ≡ settings.now.width) × IsFirstWide netlist.now.gates width gate inputs }
    ensures degree { (max : ℕ) (need : NeedValue) → IsErrOf result (ChoiceFault.DegreeLimit max need) → OfArranged netlist.now order.now settings.now (λ grouped. LacksDegree settings.now grouped max need) }
    ensures limit { (needed limit : ℕ) → IsErrOf result (ChoiceFault.CycleLimit needed limit) → OfArranged netlist.now order.now settings.now (λ grouped. LacksCycles settings.now grouped needed limit) }
    ensures period { (cells : ℕ) → IsErrOf result (ChoiceFault.NoFullPeriod cells) → OfArranged netlist.now order.now settings.now (λ grouped. LacksMask settings.now grouped cells) }
{
    let nets = netlist.nets();
    let grouped = match arranged(alloc, netlist, order, settings) {
        Ok(grouped) => grouped,
        Err(
            CutFault::GateTooWide {
                gate,
                inputs,
                width,
            },
        ) => {
            return Err(ChoiceFault::GateTooWide {
                gate,
                inputs,
                width,
            });
        }
        Err(CutFault::NoMemory) => return Err(ChoiceFault::NoMemory),
    };
    plan_of(alloc, nets, &grouped, settings)
}
