// The least degree. The choice of columns is the same at every degree at which it fits, so one choice
// at the highest degree tells the least.

ghost use Rattle.std.specs.Prelude.{◌≡◌, ◌≢◌, ◌<◌, ◌≤◌, ◌*◌, ◌-◌, ◌^◌, ◌⊎◌, ℕ, IfOk, Ok, Err, IsTrue, ◌↔◌, EachIndex, slice_index};
ghost use Rattle.std.specs.List.{AllByRecursion};
ghost use Rattle.bb_base.specs.Span.{IsIndependent};
ghost use Rattle.bb_base.specs.Firsts.{IsLeast};
ghost use Rattle.bb_code.specs.Segments.{IsSegment, AreWithin, ListSources, sources_of};
ghost use Rattle.bb_code.specs.Columns.{AreAllColumns, columns_of};
ghost use Rattle.bb_code.specs.Degree.{IsCodeDegree, IsNeed, IsFitting};
ghost use Rattle.bb_code.specs.declared.fault.Need.{Need as NeedValue};

use crate::choice::columns;
use crate::fault::{CodeFault, DegreeFault, Need};
use arrayvec::ArrayVec;
use std::alloc::Global;

/// A degree, and the column of each source by its number.
#[derive(Debug, Drop)]
pub struct Coded {
    pub degree: u32,
    pub columns: Vec<u32>,
}

/// The least degree from `min` to `max` with no fewer states than cells and a column for each source,
/// and its columns.
pub fn degree(
    alloc: Global,
    segments: &[ArrayVec<u32, 16>],
    sources: u32,
    cells: u32,
    min: u32,
    max: u32,
) -> Result<Coded, DegreeFault>
    requires segments { AllByRecursion (IsSegment sources) (sources_of segments.now) }
    requires least { 1 ≤ min }
    requires order { min ≤ max }
    requires most { max ≤ 31 }
    ensures degree { IfOk result (λ coded. IsLeast (IsCodeDegree (sources_of segments.now) sources cells min max) coded.degree) }
    ensures columns { IfOk result (λ coded. AreAllColumns coded.degree (sources_of segments.now) sources coded.columns.items) }
    ensures independent { IfOk result (λ coded. AllByRecursion (λ segment. IsIndependent (columns_of coded.columns.items segment))
        (sources_of segments.now)) }
    ensures limit { (most : ℕ) (need : NeedValue) → result ≡ Err (DegreeFault.DegreeLimit most need)
        → (most ≡ max) × IsNeed (sources_of segments.now) sources cells max need }
    ensures none { (most : ℕ) (need : NeedValue) (degree : ℕ) → result ≡ Err (DegreeFault.DegreeLimit most need)
        → IsCodeDegree (sources_of segments.now) sources cells min max degree → ⊥ }
    ensures only { ((degree : ℕ) → IsCodeDegree (sources_of segments.now) sources cells min max degree → ⊥)
        → result ≢ Err DegreeFault.NoMemory → (need : NeedValue) × (result ≡ Err (DegreeFault.DegreeLimit max need)) }
    ensures bound { (most : ℕ) (need : NeedValue) (listed size : ℕ) → result ≡ Err (DegreeFault.DegreeLimit most need)
        → AreWithin listed size (sources_of segments.now)
        → (2 ^ max < cells) ⊎ (ListSources (sources_of segments.now) × (2 ^ max ≤ listed * 2 ^ (size - 1))) }
{
    if 1u32 << max < cells {
        return Err(DegreeFault::DegreeLimit {
            max,
            need: Need::Cells { cells },
        });
    }
    match columns(alloc, segments, sources, max) {
        Ok(columns) => Ok(Coded {
            degree: least_degree(&columns, cells, min, max),
            columns,
        }),
        Err(CodeFault::Stuck { source }) => Err(DegreeFault::DegreeLimit {
            max,
            need: Need::Source { source },
        }),
        Err(CodeFault::NoMemory) => Err(DegreeFault::NoMemory),
    }
}

// The least degree of a range at which the cells and the columns fit.
fn least_degree(columns: &[u32], cells: u32, min: u32, max: u32) -> u32
    requires order { min ≤ max }
    requires most { max ≤ 31 }
    requires fits { IsFitting columns.now cells max }
    ensures { IsLeast (λ degree. (min ≤ degree) × IsFitting columns.now cells degree) result }
{
    for degree in min..max {
        if fits(columns, cells, degree) {
            return degree;
        }
    }
    max
}

// Whether a degree has states enough for the cells, and bits enough for the columns.
fn fits(columns: &[u32], cells: u32, degree: u32) -> bool
    requires { degree ≤ 31 }
    ensures { IsTrue result ↔ IsFitting columns.now cells degree }
{
    let states = 1u32 << degree;
    cells <= states && all_below(columns, states)
}

fn all_below(columns: &[u32], bound: u32) -> bool
    ensures { IsTrue result ↔ EachIndex columns.now (λ source. slice_index columns.now source < bound) }
{
    columns.iter().all(|column| *column < bound)
}
