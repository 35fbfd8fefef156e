//! The least masks of full period for the lengths of registers, in ascending order.

ghost use Rattle.std.specs.Prelude.{◌≡◌, ◌<◌, ◌≤◌, ◌↔◌, ℕ, length, slice_index, IsTrue, IfOk, IfErr};
ghost use Rattle.std.specs.List.{AllByRecursion};
ghost use Rattle.bb_base.specs.Firsts.{IsLeast};
ghost use Rattle.bb_terms.specs.Register.{IsDegree, IsFullMask};
ghost use Rattle.bb_choose.specs.Choice.{IsUnmasked, IsFirstUnmasked};
ghost use Rattle.bb_choose.specs.Coding.{HasLength};

use arrayvec::ArrayVec;
use bb_gf2::{NoFullPeriod, taps};
use bb_terms::Register;

/// Whether a register has so many cells.
fn has_length(registers: &[Register], cells: u32) -> bool
    ensures { IsTrue result ↔ HasLength registers.now cells }
{
    'registers: for register in registers {
        if register.cells.len() == cells as usize {
            return true;
        }
    }
    false
}

/// The least mask of full period of a length, 0 where no register has it.
fn mask_for(registers: &[Register], cells: u32) -> Result<u32, NoFullPeriod>
    requires least { 1 ≤ cells }
    requires most { cells ≤ 16 }
    ensures mask { IfOk result (λ mask. HasLength registers.now cells → IsLeast (IsFullMask cells) mask) }
    ensures fault { IfErr result (λ fault. (fault.degree ≡ cells) × IsUnmasked registers.now cells) }
{
    if !has_length(registers, cells) {
        return Ok(0);
    }
    taps(cells)
}

/// The least mask of full period of each length that a register has, by the lengths from 0 to 16; or the least length that has none.
fn masks_of(registers: &[Register]) -> Result<ArrayVec<u32, 17>, NoFullPeriod>
    requires some { AllByRecursion (λ g. 1 ≤ length g.cells) registers.now }
    requires few { AllByRecursion (λ g. length g.cells ≤ 16) registers.now }
    ensures long { IfOk result (λ masks. length masks.items ≡ 17) }
    ensures masks { IfOk result (λ masks. (cells : ℕ) → 1 ≤ cells → cells < 17 → HasLength registers.now cells → IsLeast (IsFullMask cells) (slice_index masks.items cells)) }
    ensures fault { IfErr result (λ fault. IsLeast (IsUnmasked registers.now) fault.degree) }
{
    let mut masks = ArrayVec::new();
    masks.push(0);
    'lengths: for cells in 1..17u32 {
        match mask_for(registers, cells) {
            Ok(mask) => masks.push(mask),
            Err(fault) => return Err(fault),
        }
    }
    Ok(masks)
}

/// The least masks of full period of a degree, and of the lengths of registers from 0 to 16.
#[derive(Drop)]
pub(crate) struct Masks {
    pub(crate) degree: u32,
    pub(crate) registers: ArrayVec<u32, 17>,
}

/// The masks of a degree and of some registers, or the first length that has none: the degree, or else the least length of a register.
pub(crate) fn all_masks(degree: u32, registers: &[Register]) -> Result<Masks, NoFullPeriod>
    requires degree { IsDegree degree }
    requires some { AllByRecursion (λ g. 1 ≤ length g.cells) registers.now }
    requires few { AllByRecursion (λ g. length g.cells ≤ 16) registers.now }
    ensures degree { IfOk result (λ masks. IsLeast (IsFullMask degree) masks.degree) }
    ensures long { IfOk result (λ masks. length masks.registers.items ≡ 17) }
    ensures masks { IfOk result (λ masks. AllByRecursion (λ g. IsLeast (IsFullMask (length g.cells)) (slice_index masks.registers.items (length g.cells))) registers.now) }
    ensures fault { IfErr result (λ fault. IsFirstUnmasked degree registers.now fault.degree) }
{
    let mask = match taps(degree) {
        Ok(mask) => mask,
        Err(fault) => return Err(fault),
    };
    match masks_of(registers) {
        Ok(masks) => Ok(Masks {
            degree: mask,
            registers: masks,
        }),
        Err(fault) => Err(fault),
    }
}
