//! Which nets are stops of a plan: those that no gate drives, and those with a Cut cell.

ghost use Rattle.std.specs.Prelude.{◌≡◌, ◌||◌, ◌<◌, ℕ, length, IfOk};
ghost use Rattle.bb_base.specs.Net.{driven};
ghost use Rattle.bb_base.specs.Levels.{AreGates};
ghost use Rattle.bb_terms.specs.Paths.{is_free};
ghost use Rattle.bb_terms.specs.Support.{stop_at};
ghost use Rattle.bb_plan.specs.Chain.{has_cut, AreOnNets};

use crate::chain::Link;
use bb_base::{Gate, Netlist};
use std::alloc::{AllocError, Global};

/// Every net is a stop but the gates' outputs.
fn free_nets(alloc: Global, nets: u32, gates: &[Gate]) -> Result<Vec<bool>, AllocError>
    requires { AreGates nets gates.now }
    ensures long { IfOk result (λ stops. length stops.items ≡ nets) }
    ensures free { IfOk result (λ stops. (net : ℕ) → stop_at stops.items net ≡ is_free gates.now net) }
{
    let mut stops = vec![in alloc; true; nets as usize]?;
    'gates: for gate in gates {
        stops[gate.out.0 as usize] = false;
    }
    Ok(stops)
}

/// Makes the nets of Cut cells stops.
fn add_cuts(stops: &mut [bool], links: &[Link])
    requires { AreOnNets (length stops.old) links.now }
    ensures long { length stops.new ≡ length stops.old }
    ensures cut { (net : ℕ) → stop_at stops.new net ≡ (stop_at stops.old net || has_cut links.now net) }
{
    'links: for link in links {
        if link.cell.kind.is_cut() {
            stops[link.cell.net.0 as usize] = true;
        }
    }
}

/// Whether each net is a stop.
pub(crate) fn stops_of(
    alloc: Global,
    netlist: &Netlist,
    links: &[Link],
) -> Result<Vec<bool>, AllocError>
    requires { AreOnNets (length (driven netlist.now)) links.now }
    ensures long { IfOk result (λ stops. length stops.items ≡ length (driven netlist.now)) }
    ensures each { IfOk result (λ stops. (net : ℕ) → stop_at stops.items net ≡ (is_free netlist.now.gates net || has_cut links.now net)) }
{
    let mut stops = free_nets(alloc, netlist.nets(), netlist.gates())?;
    add_cuts(&mut stops, links);
    Ok(stops)
}
