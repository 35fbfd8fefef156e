//! The nets that are kept, and their numbers.

ghost use Rattle.std.specs.Prelude.{◌≡◌, ◌<◌, ◌≤◌, ◌^◌, ℕ, IfOk, Some, All, length, filter, slice_get, map};
ghost use Rattle.bb_drive.specs.NamedOf.{place_among};
ghost use Rattle.bb_assemble.specs.Assembling.{number_for, IsNumbering};
ghost use Rattle.bb_drive.specs.Origins.{is_marked};

use bb_base::NetId;
use std::alloc::{AllocError, Global};

/// The bits whose flags are set.
fn kept_of(alloc: Global, bits: &[u32], flags: &[bool]) -> Result<Vec<u32>, AllocError>
    requires within { All (λ b. b < length flags.now) bits.now }
    ensures { IfOk result (λ kept. kept.items ≡ filter (is_marked flags.now) bits.now) }
{
    let mut kept = Vec::new(alloc);
    for bit in bits {
        if flags[*bit as usize] {
            kept.push(*bit)?;
        }
    }
    Ok(kept)
}

/// The number of each bit below `fresh`, and how many bits are flagged. A bit's number is its place among those, and their count
/// where it isn't one of them.
pub(crate) fn numbers_of(
    alloc: Global,
    fresh: u32,
    bits: &[u32],
    flags: &[bool],
) -> Result<(Vec<u32>, u32), AllocError>
    requires within { All (λ b. b < fresh) bits.now }
    requires few { length bits.now ≤ fresh }
    requires flags { fresh ≤ length flags.now }
    ensures { IfOk result (λ found. IsNumbering fresh bits.now flags.now found.0.items found.1) }
{
    let kept = kept_of(alloc, bits, flags)?;
    let count = kept.len() as u32;
    let mut numbers = vec![in alloc; count; fresh as usize]?;
    put_numbers(&mut numbers, &kept);
    Ok((numbers, count))
}

/// Puts the places of the kept bits in place of their count.
fn put_numbers(numbers: &mut [u32], kept: &[u32])
    requires few { length kept.now < 2 ^ 32 }
    requires within { All (λ b. b < length numbers.old) kept.now }
    requires none { (b : ℕ) → b < length numbers.old → slice_get numbers.old b ≡ Some (length kept.now) }
    ensures { (b : ℕ) → b < length numbers.old → slice_get numbers.new b ≡ Some (place_among kept.now b) }
{
    // Backwards, so that each step puts one more bit before those that have their places.
    let mut index = kept.len();
    'bits: while index > 0 {
        index -= 1;
        numbers[kept[index] as usize] = index as u32;
    }
}

/// The nets of bits.
pub(crate) fn nets_of(
    alloc: Global,
    bits: &[NetId],
    numbers: &[u32],
) -> Result<Vec<NetId>, AllocError>
    requires within { All (λ b. b < length numbers.now) bits.now }
    ensures { IfOk result (λ nets. nets.items ≡ map (number_for numbers.now) bits.now) }
{
    let mut nets = Vec::new(alloc);
    for bit in bits {
        nets.push(NetId(numbers[bit.0 as usize]))?;
    }
    Ok(nets)
}
