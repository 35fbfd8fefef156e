// A basis: the span of the vectors that it was given.

ghost use Rattle.std.specs.Prelude.{◌≡◌, ◌<◌, ◌≤◌, ◌^◌, ◌↔◌, ◌∷◌, ℕ, length, IsTrue};
ghost use Rattle.std.specs.Bool.{OnTrue, OnFalse};
ghost use Rattle.bb_base.specs.Span.{IsInSpan, IsInCoset};
ghost use Rattle.bb_base.specs.Firsts.{IsLeast};
ghost use Rattle.bb_gf2.specs.Reduced.{IsReduced};

use arrayvec::ArrayVec;
use std::marker::Model;

/// A set of vectors that are independent, which stands for their span.
#[derive(Debug, Drop)]
pub struct Basis {
    rows: ArrayVec<u32, 32>,
}

// Contracts see a basis as a list of vectors that span what it spans.
impl Model for Basis {
    ghost use Rattle.std.specs.Prelude.{ℕ, List};
    ghost use Rattle.bb_gf2.specs.Reduced.{IsReduced};

    ghost Value = { List ℕ };

    ghost view = { λ basis. basis.rows.items };

    ghost invariant = { λ basis. IsReduced basis.rows.items };
}

impl Basis {
    /// The basis whose span has 0 alone.
    pub fn new() -> Self
        ensures { (v : ℕ) → IsInSpan result v ↔ (v ≡ 0) }
    {
        Basis {
            rows: ArrayVec::new(),
        }
    }

    /// Adds a vector to the span, and answers whether it was outside.
    pub fn add(&mut self, v: u32) -> bool
        ensures outside { OnTrue result (IsInSpan self.old v → ⊥) }
        ensures inside { OnFalse result (IsInSpan self.old v) }
        ensures span { OnTrue result ((w : ℕ) → IsInSpan self.new w ↔ IsInSpan (v ∷ self.old) w) }
        ensures unchanged { OnFalse result (self.new ≡ self.old) }
    {
        let row = self.reduce(v);
        if row == 0 {
            return false;
        }
        self.rows.push(row);
        true
    }

    /// The least number that a vector makes with a member of the span.
    pub fn reduce(&self, v: u32) -> u32
        ensures least { IsLeast (IsInCoset self.now v) result }
    {
        reduced(self.rows.as_slice(), v)
    }

    /// Whether a vector is a member of the span.
    pub fn in_span(&self, v: u32) -> bool
        ensures { IsTrue result ↔ IsInSpan self.now v }
    {
        self.reduce(v) == 0
    }
}

// The least number that a vector makes with rows that are each new to those before it.
fn reduced(rows: &[u32], v: u32) -> u32
    requires { IsReduced rows.now }
    ensures { IsLeast (IsInCoset rows.now v) result }
{
    let mut least = v;
    for row in rows {
        least = least.min(least ^ *row);
    }
    least
}
