//! The lines of a certificate beside the segments of its plan.

ghost use Rattle.std.specs.Prelude.{◌≡◌, ◌↔◌, ◌≤◌, ◌^◌, ℕ, map, None, Some, IsTrue};
ghost use Rattle.bb_audit.specs.Certified.{line_cells, segment_cells, IsFirstApart};

use bb_forms::{Certificate, CertificateSegment};
use bb_terms::{Plan, Segment};

/// Whether pairs begin with these cells, in order.
fn have_cells(pairs: &[(u32, u32)], cells: &[u32]) -> bool
    ensures { IsTrue result ↔ (map (λ pair. pair.0) pairs.now ≡ cells.now) }
{
    if pairs.len() != cells.len() {
        return false;
    }
    'cells: for (place, cell) in cells.iter().enumerate() {
        if pairs[place].0 != *cell {
            return false;
        }
    }
    true
}

/// Whether a line lists the cells of a segment.
fn is_line_of(line: &CertificateSegment, segment: &Segment) -> bool
    ensures { IsTrue result ↔ (line_cells line.now ≡ segment_cells segment.now) }
{
    if line.cell != segment.cell {
        return false;
    }
    have_cells(&line.pairs, &segment.leaves)
}

/// The first place at which lines and segments differ in their cells, be it that one list has ended.
pub(crate) fn first_apart(lines: &[CertificateSegment], segments: &[Segment]) -> Option<usize>
    ensures none { result ≡ None → map line_cells lines.now ≡ map segment_cells segments.now }
    ensures first { (place : ℕ) → result ≡ Some place → IsFirstApart (map line_cells lines.now) (map segment_cells segments.now) place }
{
    'segments: for (place, segment) in segments.iter().enumerate() {
        let Some(line) = lines.get(place) else {
            return Some(place);
        };
        if !is_line_of(line, segment) {
            return Some(place);
        }
    }
    if lines.len() > segments.len() {
        return Some(segments.len());
    }
    None
}

/// How many states there are.
pub(crate) fn state_count(plan: &Plan) -> u32
    requires { plan.now.degree ≤ 20 }
    ensures { result ≡ 2 ^ plan.now.degree }
{
    1 << plan.degree
}

/// Whether a certificate has the period of a full walk.
pub(crate) fn has_period(certificate: &Certificate, plan: &Plan) -> bool
    requires { plan.now.degree ≤ 20 }
    ensures { IsTrue result ↔ (certificate.now.period ≡ 2 ^ plan.now.degree) }
{
    certificate.period == state_count(plan)
}
