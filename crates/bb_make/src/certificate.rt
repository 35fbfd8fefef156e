//! The certificate of a plan: its segments with their duals.

ghost use Rattle.std.specs.Prelude.{◌≡◌, ◌≤◌, length, map, zip, All, IfOk};
ghost use Rattle.bb_make.specs.Files.{certified, certificate_of};

use arrayvec::ArrayVec;
use bb_forms::{Certificate, CertificateSegment};
use bb_terms::{Segment, Valid};
use std::alloc::{AllocError, Global};

/// The source cells of leaves, each with the dual of its column.
fn pairs_of(leaves: &[u32], duals: &[u32]) -> ArrayVec<(u32, u32), 16>
    requires few { length leaves.now ≤ 16 }
    requires long { length duals.now ≡ length leaves.now }
    ensures { result.items ≡ zip leaves.now duals.now }
{
    let mut pairs = ArrayVec::new();
    'leaves: for (place, leaf) in leaves.iter().enumerate() {
        pairs.push((*leaf, duals[place]));
    }
    pairs
}

fn certified(segment: &Segment) -> CertificateSegment
    requires { length segment.now.duals ≡ length segment.now.leaves }
    ensures { result ≡ certified segment.now }
{
    CertificateSegment {
        cell: segment.cell,
        pairs: pairs_of(&segment.leaves, &segment.duals),
    }
}

fn all_certified(alloc: Global, segments: &[Segment]) -> Result<Vec<CertificateSegment>, AllocError>
    requires { All (λ segment. length segment.duals ≡ length segment.leaves) segments.now }
    ensures { IfOk result (λ list. list.items ≡ map certified segments.now) }
{
    let mut list = Vec::new(alloc);
    'segments: for segment in segments {
        list.push(certified(segment))?;
    }
    Ok(list)
}

/// The certificate of a plan with its segments.
pub(crate) fn certificate_of(alloc: Global, valid: &Valid) -> Result<Certificate, AllocError>
    requires degree { valid.now.plan.degree ≤ 20 }
    requires duals { All (λ segment. length segment.duals ≡ length segment.leaves) valid.now.segments }
    ensures { IfOk result (λ certificate. certificate ≡ certificate_of valid.now.plan valid.now.segments) }
{
    let segments = all_certified(alloc, valid.segments())?;
    Ok(Certificate {
        period: 1 << valid.plan().degree,
        segments,
    })
}
