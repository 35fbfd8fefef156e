//! Numbers without repetition, in ascending order.

ghost use Rattle.std.specs.Prelude.{◌≡◌, ◌<◌, ◌≤◌, ◌^◌, ℕ, List, length, nat_eq, slice_get, Some, Contains, IfOk, OnOk, IsErrOf};
ghost use Rattle.std.specs.List.Sorted.{IsPermutation, IsSorted};
ghost use Rattle.std.specs.Set.{distinct_count};
ghost use Rattle.std.specs.Ordering.{nat_cmp};
ghost use Rattle.bb_base.specs.Net.{Gate as GateValue};
ghost use Rattle.bb_base.specs.Levels.{AreGates};
ghost use Rattle.bb_terms.specs.Cuts.{IsFirstWide};
ghost use Rattle.bb_segment.specs.Cutting.{IsSetOf};

use crate::CutFault;
use bb_base::{Gate, NetId};
use std::alloc::{AllocError, Global};

/// The numbers in ascending order, each once.
pub(crate) fn into_set(numbers: Vec<u32>) -> Vec<u32>
    ensures { IsSetOf numbers.items result.items }
{
    let mut numbers = numbers;
    numbers.sort_unstable();
    numbers.dedup();
    numbers
}

/// The numbers of nets.
fn numbers_of(alloc: Global, nets: &[NetId]) -> Result<Vec<u32>, AllocError>
    ensures { IfOk result (λ numbers. numbers.items ≡ nets.now) }
{
    let mut numbers = Vec::new(alloc);
    'nets: for net in nets {
        numbers.push(net.0)?;
    }
    Ok(numbers)
}

/// How many different nets there are among some.
fn count_different(alloc: Global, nets: &[NetId]) -> Result<usize, AllocError>
    ensures count { IfOk result (λ count. count ≡ distinct_count nat_eq nets.now) }
    ensures few { (most : ℕ) → ((net : ℕ) → Contains nets.now net → net < most) → IfOk result (λ count. count ≤ most) }
{
    let numbers = numbers_of(alloc, nets)?;
    Ok(into_set(numbers).len())
}

/// Refuses the first gate by number that has more different inputs than the width.
pub(crate) fn check_widths(
    alloc: Global,
    nets: u32,
    gates: &[Gate],
    width: u32,
) -> Result<(), CutFault>
    requires gates { AreGates nets gates.now }
    ensures narrow { OnOk result ((h : ℕ) (g : GateValue ℕ) → slice_get gates.now h ≡ Some g → distinct_count nat_eq g.ins ≤ width) }
    ensures wide { (gate inputs most : ℕ) → IsErrOf result (CutFault.GateTooWide gate inputs most) → IsFirstWide gates.now width gate inputs }
    ensures width { (gate inputs most : ℕ) → IsErrOf result (CutFault.GateTooWide gate inputs most) → most ≡ width }
{
    'gates: for (number, gate) in gates.iter().enumerate() {
        let inputs = count_different(alloc, &gate.ins)?;
        if inputs > width as usize {
            return Err(CutFault::GateTooWide {
                gate: number as u32,
                inputs: inputs as u32,
                width,
            });
        }
    }
    Ok(())
}
