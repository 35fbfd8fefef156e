//! What a job counts.

ghost use Rattle.std.specs.Prelude.{◌≡◌, ◌<◌, ◌^◌, length};
ghost use Rattle.bb_forms.specs.ScheduleText.{test_cycles};
ghost use Rattle.bb_make.specs.Artifacts.{IsSummary};
ghost use Rattle.bb_make.specs.Bounds.{HasBounds};

use crate::artifacts::Summary;
use bb_base::Netlist;
use bb_terms::Plan;

/// The counts of a netlist and its plan, whose test takes so many cycles.
pub(crate) fn summary_of(netlist: &Netlist, plan: &Plan, cycles: u64) -> Summary
    requires gates { length netlist.now.gates < 2 ^ 32 }
    requires flops { length netlist.now.flops < 2 ^ 32 }
    requires bounds { HasBounds plan.now }
    requires cycles { cycles ≡ test_cycles plan.now }
    ensures { IsSummary netlist.now plan.now result }
{
    Summary {
        gates: netlist.gates().len() as u32,
        flops: netlist.flops().len() as u32,
        cells: plan.cells() as u32,
        registers: plan.registers.len() as u32,
        sessions: plan.sessions.len() as u32,
        degree: plan.degree,
        cycles,
    }
}
