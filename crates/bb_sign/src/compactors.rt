//! Registers as they take in their lines.

ghost use Rattle.std.specs.Prelude.{◌≡◌, ◌<◌, ◌≤◌, ◌^◌, ℕ, Some, length, All, IfOk, slice_get, slice_index};
ghost use Rattle.std.specs.List.{AllZip};
ghost use Rattle.bb_base.specs.Net.{driven, IsNetlist};
ghost use Rattle.bb_base.specs.Bits.{from_bits};
ghost use Rattle.bb_terms.specs.Valid.{IsValidPlan};
ghost use Rattle.bb_eqn.specs.Lanes.{in_lane};
ghost use Rattle.bb_sign.specs.Compactors.{CompactorValue, HasFewLines, IsCompactor, AreHeld, taken_in, compacted};

use crate::lines::rows_of;
use crate::starts::starts_of;
use bb_base::Netlist;
use bb_eqn::{lines_at, misr_step, transpose};
use bb_terms::{Plan, Register, Start};
use std::alloc::{AllocError, Global};
use std::marker::Model;

/// A register's mask, and where its lines start. One with an Input or Split cell compacts in no session, and has no lines here.
#[derive(Drop)]
pub(crate) struct Compactor {
    mask: u32,
    starts: Vec<Start>,
}

impl Model for Compactor {
    ghost use Rattle.bb_sign.specs.Compactors.{CompactorValue};

    ghost Value = { CompactorValue };

    ghost view = { λ k. record { mask = k.mask; starts = k.starts.items } };
}

/// The compactor of a register.
fn compactor_of(
    alloc: Global,
    netlist: &Netlist,
    plan: &Plan,
    register: &Register,
) -> Result<Compactor, AllocError>
    requires valid { IsValidPlan netlist.now plan.now }
    requires netlist { IsNetlist netlist.now }
    requires stands { (r : ℕ) × (slice_get plan.now.registers r ≡ Some register.now) }
    ensures { IfOk result (IsCompactor netlist.now register.now) }
{
    if register.has_input() {
        return Ok(Compactor {
            mask: register.mask,
            starts: Vec::new(alloc),
        });
    }
    let starts = starts_of(alloc, netlist, &register.cells)?;
    Ok(Compactor {
        mask: register.mask,
        starts,
    })
}

/// The compactors of all registers.
pub(crate) fn compactors_of(
    alloc: Global,
    netlist: &Netlist,
    plan: &Plan,
) -> Result<Vec<Compactor>, AllocError>
    requires valid { IsValidPlan netlist.now plan.now }
    requires netlist { IsNetlist netlist.now }
    ensures { IfOk result (λ compactors. AllZip (IsCompactor netlist.now) plan.now.registers compactors.items) }
{
    let mut compactors = Vec::new(alloc);
    'registers: for register in &plan.registers {
        compactors.push(compactor_of(alloc, netlist, plan, register)?)?;
    }
    Ok(compactors)
}

/// What a register holds after it took in its lines at so many states, those of state t in lane t of its rows.
fn take_in(cells: u32, mask: u32, rows: &mut [u64; 16], count: u32, held: u32) -> u32
    requires few { cells ≤ 16 }
    requires lines { (t : ℕ) → t < 64 → from_bits (in_lane t rows.old) < 2 ^ cells }
    requires count { count ≤ 64 }
    requires held { held < 2 ^ cells }
    ensures value { result ≡ taken_in cells mask (λ t. from_bits (in_lane t rows.old)) count held }
    ensures below { result < 2 ^ cells }
{
    transpose(rows);
    let mut state = held;
    for lane in 0..count {
        state = misr_step(cells, mask, state, lines_at(rows, lane));
    }
    state
}

/// The same by the words of all nets.
fn compact(netlist: &Netlist, compactor: &Compactor, values: &[u64], count: u32, held: u32) -> u32
    requires few { HasFewLines netlist.now compactor.now }
    requires values { length values.now ≡ length (driven netlist.now) }
    requires count { count ≤ 64 }
    requires held { held < 2 ^ length compactor.now.starts }
    ensures value { result ≡ compacted netlist.now.gates values.now compactor.now count held }
    ensures below { result < 2 ^ length compactor.now.starts }
{
    let mut rows = rows_of(netlist, &compactor.starts, values);
    let cells = compactor.starts.len() as u32;
    take_in(cells, compactor.mask, &mut rows, count, held)
}

/// Each register takes in its lines at so many states.
pub(crate) fn compact_all(
    netlist: &Netlist,
    compactors: &[Compactor],
    values: &[u64],
    count: u32,
    held: &mut [u32],
)
    requires few { All (HasFewLines netlist.now) compactors.now }
    requires values { length values.now ≡ length (driven netlist.now) }
    requires count { count ≤ 64 }
    requires held { AreHeld compactors.now held.old }
    ensures each { (r : ℕ) (k : CompactorValue) → slice_get compactors.now r ≡ Some k → slice_index held.new r ≡ compacted netlist.now.gates values.now k count (slice_index held.old r) }
    ensures held { AreHeld compactors.now held.new }
{
    'compactors: for (place, compactor) in compactors.iter().enumerate() {
        held[place] = compact(netlist, compactor, values, count, held[place]);
    }
}
