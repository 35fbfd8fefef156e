//! Segments: the lines with the duals of their source cells' columns.

ghost use Rattle.std.specs.Prelude.{◌≡◌, ◌<◌, ◌≤◌, ℕ, length, map, All, None, IfOk, OnOk, IfSome, IsErrOf};
ghost use Rattle.std.specs.List.{AllZip};
ghost use Rattle.bb_base.specs.Places.{EachAt};
ghost use Rattle.bb_base.specs.Span.{IsIndependent};
ghost use Rattle.bb_plan.specs.Chain.{column_of_cell};
ghost use Rattle.bb_plan.specs.Coded.{IsCodedLine, IsIndependentLine, IsFirstDependent};

use crate::chain::Link;
use crate::lines::Line;
use arrayvec::ArrayVec;
use bb_gf2::duals;
use bb_terms::{PlanFault, Segment};
use std::alloc::Global;

/// The columns of some cells.
fn columns_of(links: &[Link], cells: &[u32]) -> ArrayVec<u32, 16>
    requires few { length cells.now ≤ 16 }
    requires within { All (λ i. i < length links.now) cells.now }
    ensures { result.items ≡ map (column_of_cell links.now) cells.now }
{
    let mut columns = ArrayVec::new();
    'cells: for cell in cells {
        columns.push(links[*cell as usize].cell.column);
    }
    columns
}

/// A copy of some cells' numbers.
fn copied(cells: &[u32]) -> ArrayVec<u32, 16>
    requires { length cells.now ≤ 16 }
    ensures { result.items ≡ cells.now }
{
    let mut copy = ArrayVec::new();
    'cells: for cell in cells {
        copy.push(*cell);
    }
    copy
}

/// A line with its least duals, where the columns of its source cells are independent.
fn segment_of(links: &[Link], line: &Line) -> Option<Segment>
    requires few { length line.now.sources ≤ 16 }
    requires within { All (λ i. i < length links.now) line.now.sources }
    ensures coded { IfSome result (IsCodedLine links.now line.now) }
    ensures independent { IfSome result (λ segment. IsIndependent (map (column_of_cell links.now) line.now.sources)) }
    ensures dependent { result ≡ None → IsIndependent (map (column_of_cell links.now) line.now.sources) → ⊥ }
{
    let columns = columns_of(links, &line.sources);
    match duals(&columns) {
        Ok(duals) => Some(Segment {
            cell: line.cell,
            leaves: copied(&line.sources),
            duals,
        }),
        Err(_) => None,
    }
}

/// The segments of all lines, or the first observer whose source cells' columns are dependent.
pub(crate) fn segments_of(
    alloc: Global,
    links: &[Link],
    lines: &[Line],
) -> Result<Vec<Segment>, PlanFault>
    requires few { All (λ line. length line.sources ≤ 16) lines.now }
    requires within { All (λ line. All (λ i. i < length links.now) line.sources) lines.now }
    ensures segments { IfOk result (λ segments. AllZip (IsCodedLine links.now) lines.now segments.items) }
    ensures codes { OnOk result (EachAt lines.now (IsIndependentLine links.now)) }
    ensures dependent { (number place : ℕ) → IsErrOf result (PlanFault.Rule number place) → (number ≡ 13) × IsFirstDependent links.now lines.now place }
{
    let mut segments = Vec::new(alloc);
    'lines: for line in lines {
        let Some(segment) = segment_of(links, line) else {
            return Err(PlanFault::Rule {
                number: 13,
                place: line.cell,
            });
        };
        segments.push(segment)?;
    }
    Ok(segments)
}
