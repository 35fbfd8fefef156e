//! Where a netlist first differs from the one that should have been written.

ghost use Rattle.std.specs.Prelude.{◌≡◌, ℕ, None, Some, IfOk, slice_get};
ghost use Rattle.std.specs.Bool.{OnTrue, OnFalse};
ghost use Rattle.bb_alike.specs.Alike.{AgreesWith, NetlistsDifferAt};

use crate::drivers::first_unlike;
use crate::front::has_front;
use crate::nets::{net_count, same_nets};
use bb_base::NetId;
use bb_net::Named;
use std::alloc::{AllocError, Global};

/// Whether some net has none at its site in the other netlist.
fn has_more(nets: &[Option<NetId>]) -> bool
    ensures some { OnTrue result ((net : ℕ) × (slice_get nets.now net ≡ Some None)) }
    ensures none { OnFalse result ((net : ℕ) → slice_get nets.now net ≡ Some None → ⊥) }
{
    'nets: for net in nets {
        if net.is_none() {
            return true;
        }
    }
    false
}

/// Where a written netlist first differs from the one that should have been written: 0 for module, ports or clock, and else a net of that
/// one, counted from 1, or one more than all of them where there are others. Each variable and each net is looked up once in both.
pub fn difference(alloc: Global, woven: &Named, written: &Named) -> Result<Option<u32>, AllocError>
    ensures none { IfOk result (λ found. found ≡ None → AgreesWith woven.now written.now) }
    ensures some { IfOk result (λ found. (place : ℕ) → found ≡ Some place → NetlistsDifferAt woven.now written.now place) }
{
    if !has_front(woven, written) {
        return Ok(Some(0));
    }
    let nets = same_nets(alloc, woven, written)?;
    let count = net_count(woven);
    if let Some(net) = first_unlike(woven, written, &nets) {
        return Ok(Some(net + 1));
    }
    let back = same_nets(alloc, written, woven)?;
    if has_more(&back) {
        return Ok(Some(count + 1));
    }
    Ok(None)
}
