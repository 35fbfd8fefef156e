//! How many bits variables have, and the fault of too many.

ghost use Rattle.std.specs.Prelude.{◌≡◌, ℕ, ◌-◌, ◌+◌, ◌^◌, min};
ghost use Rattle.bb_base.specs.Variables.{range_width, bit_count};
ghost use Rattle.bb_fault.specs.Limits.{told_count, too_many};

use crate::fault::ElabFault;
use bb_base::{Name, Variable};
use indexmap::IndexMap;

/// How many bits a variable has.
pub fn range_width(range: Option<(u32, u32)>) -> u64
    ensures { result ≡ range_width range }
{
    match range {
        None => 1,
        Some((left, right)) => left.abs_diff(right) as u64 + 1,
    }
}

/// How many bits the variables have.
pub fn bit_count(table: &IndexMap<Name, Variable>) -> u64
    ensures { result ≡ told_count (bit_count table.now.entries) }
{
    let mut count: u64 = 0;
    for index in 0..table.len() {
        let (_, variable) = table.get_index(index).unwrap();
        count = count.saturating_add(range_width(variable.range));
    }
    count
}

/// The fault of so many bits.
pub fn too_many(own: bool, count: u64) -> Option<ElabFault>
    ensures { (bits : ℕ) → count ≡ told_count bits → result ≡ too_many own bits }
{
    let limit = if own { 134_217_728 } else { 2_097_152 };
    if count > limit {
        return Some(ElabFault::TooMany { count, limit });
    }
    None
}
