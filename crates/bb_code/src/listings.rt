// The segments that list each source, by their places: the segments turned round.

ghost use Rattle.std.specs.Prelude.{◌≡◌, ◌<◌, ◌+◌, ◌++◌, ◌∷◌, [], ℕ, length, map, OnOk, IfOk, replicate, if◌then◌else◌};
ghost use Rattle.std.specs.List.{slice_index_or, AllByRecursion};
ghost use Rattle.bb_code.specs.Segments.{IsSegment, lists, sources_of};
ghost use Rattle.bb_code.specs.Listings.{AreListings};

use arrayvec::ArrayVec;
use std::alloc::{AllocError, Global};

/// For each source the places of the segments that list it.
pub(crate) fn listings(
    alloc: Global,
    segments: &[ArrayVec<u32, 16>],
    sources: u32,
) -> Result<Vec<Vec<usize>>, AllocError>
    requires { AllByRecursion (IsSegment sources) (sources_of segments.now) }
    ensures { IfOk result (λ listings. AreListings (sources_of segments.now) sources (map (λ places. places.items) listings.items)) }
{
    let mut listings = empty_lists(alloc, sources)?;
    for (place, segment) in segments.iter().enumerate() {
        add_segment(&mut listings, place, segment.as_slice())?;
    }
    Ok(listings)
}

// So many lists that are empty.
fn empty_lists(alloc: Global, count: u32) -> Result<Vec<Vec<usize>>, AllocError>
    ensures { IfOk result (λ listings. map (λ places. places.items) listings.items ≡ replicate count []) }
{
    let mut listings = Vec::new(alloc);
    for _ in 0..count {
        listings.push(Vec::new(alloc))?;
    }
    Ok(listings)
}

// Adds the place of a segment to the list of each of its sources.
fn add_segment(
    listings: &mut Vec<Vec<usize>>,
    place: usize,
    segment: &[u32],
) -> Result<(), AllocError>
    requires { IsSegment (length listings.old.items) segment.now }
    ensures count { length listings.new.items ≡ length listings.old.items }
    ensures places { OnOk result ((source : ℕ) → source < length listings.old.items
        → slice_index_or (map (λ places. places.items) listings.new.items) source []
        ≡ slice_index_or (map (λ places. places.items) listings.old.items) source [] ++ (if lists source segment.now then place ∷ [] else [])) }
{
    for source in segment {
        listings[*source as usize].push(place)?;
    }
    Ok(())
}
