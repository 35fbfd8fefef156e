// The choice of columns, source by source.

ghost use Rattle.std.specs.Prelude.{◌≡◌, ◌≢◌, ◌<◌, ◌≤◌, ◌*◌, ◌-◌, ◌^◌, ℕ, length, map, IfOk, Ok, Err, MatchOption};
ghost use Rattle.std.specs.List.{AllByRecursion};
ghost use Rattle.bb_base.specs.Span.{IsIndependent};
ghost use Rattle.bb_base.specs.Firsts.{IsLeast};
ghost use Rattle.bb_code.specs.Segments.{IsSegment, AreWithin, listing, sources_of};
ghost use Rattle.bb_code.specs.Listings.{at_places};
ghost use Rattle.bb_code.specs.Columns.{AreAllColumns, IsStuckSource, columns_of, given_columns, forbidding, IsFree};

use crate::fault::CodeFault;
use crate::listings::listings;
use crate::marks::least_free;
use arrayvec::ArrayVec;
use std::alloc::{AllocError, Global};

/// A column for each source, by its number: the least that is outside the span of the columns given
/// before to the sources of each segment that lists it.
pub fn columns(
    alloc: Global,
    segments: &[ArrayVec<u32, 16>],
    sources: u32,
    degree: u32,
) -> Result<Vec<u32>, CodeFault>
    requires segments { AllByRecursion (IsSegment sources) (sources_of segments.now) }
    requires least { 1 ≤ degree }
    requires most { degree ≤ 31 }
    ensures columns { IfOk result (λ columns. AreAllColumns degree (sources_of segments.now) sources columns.items) }
    ensures independent { IfOk result (λ columns. AllByRecursion (λ segment. IsIndependent (columns_of columns.items segment))
        (sources_of segments.now)) }
    ensures stuck { (source : ℕ) → result ≡ Err (CodeFault.Stuck source)
        → (source < sources) × IsStuckSource degree (sources_of segments.now) source }
    ensures only { (source : ℕ) → source < sources → IsStuckSource degree (sources_of segments.now) source
        → result ≢ Err CodeFault.NoMemory → result ≡ Err (CodeFault.Stuck source) }
    ensures bound { (source listed size : ℕ) → result ≡ Err (CodeFault.Stuck source)
        → AreWithin listed size (sources_of segments.now) → 2 ^ degree ≤ listed * 2 ^ (size - 1) }
{
    let listings = listings(alloc, segments, sources)?;
    let mut columns = Vec::new(alloc);
    for source in 0..sources {
        match next_column(
            alloc,
            segments,
            &listings[source as usize],
            &columns,
            degree,
        )? {
            Some(column) => columns.push(column)?,
            None => return Err(CodeFault::Stuck { source }),
        }
    }
    Ok(columns)
}

// The least column that the next source can take, if one is left; the segments at the places list it.
fn next_column(
    alloc: Global,
    segments: &[ArrayVec<u32, 16>],
    places: &[usize],
    columns: &[u32],
    degree: u32,
) -> Result<Option<u32>, AllocError>
    requires within { AllByRecursion (λ place. place < length segments.now) places.now }
    requires listed { at_places (sources_of segments.now) places.now
        ≡ listing (sources_of segments.now) (length columns.now) }
    requires least { 1 ≤ degree }
    requires most { degree ≤ 31 }
    ensures { IfOk result (λ column. MatchOption column
        ((v : ℕ) → IsFree degree (forbidding (sources_of segments.now) columns.now) v → ⊥)
        (λ v. IsLeast (IsFree degree (forbidding (sources_of segments.now) columns.now)) v)) }
{
    let spans = spans_of(alloc, segments, places, columns)?;
    least_free(alloc, &spans, degree)
}

// For each segment at these places, the columns that its sources have so far.
fn spans_of(
    alloc: Global,
    segments: &[ArrayVec<u32, 16>],
    places: &[usize],
    columns: &[u32],
) -> Result<Vec<ArrayVec<u32, 16>>, AllocError>
    requires { AllByRecursion (λ place. place < length segments.now) places.now }
    ensures { IfOk result (λ spans. map (λ rows. rows.items) spans.items
        ≡ map (given_columns columns.now) (at_places (sources_of segments.now) places.now)) }
{
    let mut spans = Vec::new(alloc);
    for place in places {
        spans.push(given_columns(columns, segments[*place].as_slice()))?;
    }
    Ok(spans)
}

// The columns that a segment's sources have so far.
fn given_columns(columns: &[u32], segment: &[u32]) -> ArrayVec<u32, 16>
    requires { length segment.now ≤ 16 }
    ensures { result.items ≡ given_columns columns.now segment.now }
{
    let mut rows = ArrayVec::new();
    for source in segment {
        if (*source as usize) < columns.len() {
            rows.push(columns[*source as usize]);
        }
    }
    rows
}
