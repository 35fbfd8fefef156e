//! The source cells of leaves.

ghost use Rattle.std.specs.Prelude.{◌≡◌, ◌<◌, ◌≤◌, ◌^◌, length, map, slice_index, All, IfOk};
ghost use Rattle.std.specs.List.Sorted.{IsPermutation, IsSorted};
ghost use Rattle.std.specs.Ordering.{nat_cmp};
ghost use Rattle.bb_plan.specs.Chain.{AreOnNets, HaveOneSource, AreSources};

use crate::chain::Link;
use arrayvec::ArrayVec;
use bb_base::NetId;
use std::alloc::{AllocError, Global};

/// Notes each source cell's number at its net.
fn note_sources(sources: &mut [u32], links: &[Link])
    requires few { length links.now < 2 ^ 32 }
    requires within { AreOnNets (length sources.old) links.now }
    requires one { HaveOneSource links.now }
    ensures long { length sources.new ≡ length sources.old }
    ensures each { AreSources links.now sources.new }
{
    'links: for (number, link) in links.iter().enumerate() {
        if link.cell.kind.is_source() {
            sources[link.cell.net.0 as usize] = number as u32;
        }
    }
}

/// For each net the number of the source cell on it, and 0 where there is none.
pub(crate) fn sources_of(alloc: Global, nets: u32, links: &[Link]) -> Result<Vec<u32>, AllocError>
    requires few { length links.now < 2 ^ 32 }
    requires within { AreOnNets nets links.now }
    requires one { HaveOneSource links.now }
    ensures long { IfOk result (λ sources. length sources.items ≡ nets) }
    ensures each { IfOk result (λ sources. AreSources links.now sources.items) }
{
    let mut sources = vec![in alloc; 0u32; nets as usize]?;
    note_sources(&mut sources, links);
    Ok(sources)
}

/// The numbers of the source cells on some nets.
fn numbers_on(sources: &[u32], nets: &[NetId]) -> ArrayVec<u32, 16>
    requires few { length nets.now ≤ 16 }
    requires within { All (λ net. net < length sources.now) nets.now }
    ensures { result.items ≡ map (slice_index sources.now) nets.now }
{
    let mut numbers = ArrayVec::new();
    'nets: for net in nets {
        numbers.push(sources[net.0 as usize]);
    }
    numbers
}

/// The numbers of the source cells on some nets in ascending order.
pub(crate) fn ascending_numbers(sources: &[u32], nets: &[NetId]) -> ArrayVec<u32, 16>
    requires few { length nets.now ≤ 16 }
    requires within { All (λ net. net < length sources.now) nets.now }
    ensures moved { IsPermutation (map (slice_index sources.now) nets.now) result.items }
    ensures sorted { IsSorted nat_cmp result.items }
{
    let mut numbers = numbers_on(sources, nets);
    numbers.as_mut_slice().sort_unstable();
    numbers
}
