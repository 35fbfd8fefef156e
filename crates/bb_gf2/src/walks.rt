// The walk of a complete register from 0. Since no two states have one next state, the first state
// that comes again is 0; so a walk that isn't back before 2^degree steps has met as many different
// states as there are, and nothing has to be marked.

ghost use Rattle.std.specs.Prelude.{◌≡◌, ◌<◌, ◌^◌, OnOk, OnErr, IfOk, IfErr};
ghost use Rattle.bb_terms.specs.Register.{IsDegree, IsMask, IsFullPeriod};
ghost use Rattle.bb_terms.specs.Walk.{IsFirstReturn};

use crate::states::next;
use std::marker::Model;

/// A complete register whose walk from 0 meets every state.
#[derive(Clone, Copy, Debug, PartialEq, Eq)]
pub struct Full {
    degree: u32,
    mask: u32,
}

// Contracts see the degree and the mask.
impl Model for Full {
    ghost use Rattle.bb_terms.specs.Walk.{Taps, IsFullWalk};

    ghost Value = { Taps };

    ghost view = { λ full. record { degree = full.degree; mask = full.mask } };

    ghost invariant = { λ full. IsFullWalk (record { degree = full.degree; mask = full.mask }) };

    ghost inverse = { λ taps. record { degree = taps.degree; mask = taps.mask } };
}

impl Full {
    /// The register's length.
    pub fn degree(&self) -> u32
        ensures value { result ≡ self.now.degree }
        ensures fits { IsDegree self.now.degree }
        ensures full { IsFullPeriod self.now.degree self.now.mask }
    {
        self.degree
    }

    /// The feedback taps.
    pub fn mask(&self) -> u32
        ensures value { result ≡ self.now.mask }
        ensures fits { IsMask self.now.degree self.now.mask }
        ensures full { IsFullPeriod self.now.degree self.now.mask }
    {
        self.mask
    }
}

/// The walk from 0 is back after so many steps, and so misses some states.
#[derive(Clone, Copy, Debug, PartialEq, Eq)]
pub struct Short {
    pub steps: u32,
}

/// Walks a complete register from 0 until it is back, and answers whether it met every state.
pub fn walk(degree: u32, mask: u32) -> Result<Full, Short>
    requires degree { IsDegree degree }
    requires mask { IsMask degree mask }
    ensures taps { IfOk result (λ full. (full.degree ≡ degree) × (full.mask ≡ mask)) }
    ensures full { OnOk result (IsFullPeriod degree mask) }
    ensures not_full { OnErr result (IsFullPeriod degree mask → ⊥) }
    ensures short { IfErr result (λ short. (short.steps < 2 ^ degree) × IsFirstReturn degree mask short.steps) }
{
    let mut x = 0;
    for steps in 1..1u32 << degree {
        x = next(degree, mask, x);
        if x == 0 {
            return Err(Short { steps });
        }
    }
    Ok(Full { degree, mask })
}
