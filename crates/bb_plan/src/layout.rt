//! What is read of a plan before its lines are walked.

ghost use Rattle.std.specs.Prelude.{IfOk};
ghost use Rattle.bb_plan.specs.Answers.{MeetsTo};
ghost use Rattle.bb_plan.specs.Layout.{IsLayout};

use crate::chain::{Link, chain_of};
use crate::sources::sources_of;
use crate::stops::stops_of;
use bb_base::Netlist;
use bb_terms::Plan;
use std::alloc::{AllocError, Global};

/// The chain of a plan's cells; for each net whether it is a stop; and for each net the number of its source cell.
#[derive(Drop)]
pub(crate) struct Layout {
    pub(crate) links: Vec<Link>,
    pub(crate) stops: Vec<bool>,
    pub(crate) sources: Vec<u32>,
}

/// The layout of a plan over a netlist.
pub(crate) fn layout_of(alloc: Global, netlist: &Netlist, plan: &Plan) -> Result<Layout, AllocError>
    requires before { MeetsTo netlist.now plan.now 10 }
    ensures { IfOk result (λ layout. IsLayout netlist.now plan.now layout.links.items layout.stops.items layout.sources.items) }
{
    let nets = netlist.nets();
    let links = chain_of(alloc, &plan.registers)?;
    let stops = stops_of(alloc, netlist, &links)?;
    let sources = sources_of(alloc, nets, &links)?;
    Ok(Layout {
        links,
        stops,
        sources,
    })
}
