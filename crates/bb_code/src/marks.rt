// The least number outside some spans, by marks on the numbers inside. The spans have no more numbers
// than their sizes added up, so one of the numbers up to that sum is outside all of them, and the marks
// need not go further.

ghost use Rattle.std.specs.Prelude.{◌≡◌, ◌<◌, ◌≤◌, ◌+◌, ◌^◌, ◌↔◌, ◌⊎◌, ℕ, true, false, length, map, min, IfOk, MatchOption};
ghost use Rattle.std.specs.List.{slice_index_or};
ghost use Rattle.bb_base.specs.Span.{IsInCoset};
ghost use Rattle.bb_base.specs.Firsts.{IsLeast};
ghost use Rattle.bb_code.specs.Columns.{IsFree};
ghost use Rattle.bb_code.specs.Marks.{sizes, IsInside};

use arrayvec::ArrayVec;
use std::alloc::{AllocError, Global};

/// The least column of a degree that is outside the span of each list, if there is one.
pub(crate) fn least_free(
    alloc: Global,
    spans: &[ArrayVec<u32, 16>],
    degree: u32,
) -> Result<Option<u32>, AllocError>
    requires least { 1 ≤ degree }
    requires most { degree ≤ 31 }
    ensures { IfOk result (λ free. MatchOption free ((v : ℕ) → IsFree degree (map (λ rows. rows.items) spans.now) v → ⊥)
        (λ v. IsLeast (IsFree degree (map (λ rows. rows.items) spans.now)) v)) }
{
    let mut marks = vec![in alloc; false; room_for(spans, degree)]?;
    marks[0] = true;
    mark_spans(&mut marks, spans);
    Ok(first_unmarked(&marks))
}

// How many marks are enough: one more than there are numbers inside, but no more than the degree has.
fn room_for(spans: &[ArrayVec<u32, 16>], degree: u32) -> usize
    requires least { 1 ≤ degree }
    requires most { degree ≤ 31 }
    ensures { result ≡ min (2 ^ degree) (2 + sizes (map (λ rows. rows.items) spans.now)) }
{
    let most = 1usize << degree;
    let mut room = 2;
    for rows in spans {
        room = most.min(room + (1usize << rows.len()));
    }
    room
}

// Marks all numbers in the spans, as far as there are places.
fn mark_spans(marks: &mut [bool], spans: &[ArrayVec<u32, 16>])
    ensures { (w : ℕ) → w < length marks.old → (slice_index_or marks.new w true ≡ true)
        ↔ ((slice_index_or marks.old w true ≡ true) ⊎ IsInside (map (λ rows. rows.items) spans.now) w) }
{
    for rows in spans {
        mark_coset(marks, rows.as_slice(), 0);
    }
}

// Marks what a number makes with each member of the span of some rows, as far as there are places.
fn mark_coset(marks: &mut [bool], rows: &[u32], v: u32)
    ensures { (w : ℕ) → w < length marks.old
        → (slice_index_or marks.new w true ≡ true) ↔ ((slice_index_or marks.old w true ≡ true) ⊎ IsInCoset rows.now v w) }
{
    match rows.split_first() {
        Some((row, rest)) => {
            mark_coset(marks, rest, v);
            mark_coset(marks, rest, v ^ *row);
        }
        None => {
            if (v as usize) < marks.len() {
                marks[v as usize] = true;
            }
        }
    }
}

// The first place without a mark.
fn first_unmarked(marks: &[bool]) -> Option<u32>
    requires { length marks.now < 2 ^ 32 }
    ensures { MatchOption result ((w : ℕ) → w < length marks.now → slice_index_or marks.now w true ≡ true)
        (λ v. (v < length marks.now) × (slice_index_or marks.now v true ≡ false)
        × ((w : ℕ) → w < v → slice_index_or marks.now w true ≡ true)) }
{
    for (place, mark) in marks.iter().enumerate() {
        if !*mark {
            return Some(place as u32);
        }
    }
    None
}
