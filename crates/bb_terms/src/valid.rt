ghost use Rattle.std.specs.Prelude.{◌≡◌};

use crate::Plan;
use arrayvec::ArrayVec;
use std::marker::Model;

/// The segment of an observer: its cell's number, the numbers of its leaves' source cells in ascending order, and for each of them
/// the least dual of its column among theirs.
#[derive(Drop)]
pub struct Segment {
    pub cell: u32,
    pub leaves: ArrayVec<u32, 16>,
    pub duals: ArrayVec<u32, 16>,
}

impl Model for Segment {
    ghost use Rattle.bb_terms.specs.Valid.{SegmentValue};

    ghost Value = { SegmentValue };

    ghost view = { λ s. record { cell = s.cell; leaves = s.leaves.items; duals = s.duals.items } };
}

/// A plan with a segment for each observer, in the order of the chain. That both fit a netlist is `IsValidFor`, which calls ask for.
#[derive(Drop)]
pub struct Valid {
    plan: Plan,
    segments: Vec<Segment>,
}

impl Model for Valid {
    ghost use Rattle.bb_terms.specs.Valid.{ValidValue};

    ghost Value = { ValidValue };

    ghost view = { λ v. record { plan = v.plan; segments = v.segments.items } };
}

impl Valid {
    /// A plan and segments that were found to be its own.
    pub fn new(plan: Plan, segments: Vec<Segment>) -> Valid
        ensures plan { result.plan ≡ plan }
        ensures segments { result.segments ≡ segments.items }
    {
        Valid { plan, segments }
    }

    pub fn plan(&self) -> &Plan
        ensures { result.now ≡ self.now.plan }
    {
        &self.plan
    }

    pub fn segments(&self) -> &[Segment]
        ensures { result.now ≡ self.now.segments }
    {
        &self.segments
    }
}
