//! Laws, as contracts of functions without a body.

ghost use Rattle.bb_terms.specs.Wires.{IsAdded};
ghost use Rattle.bb_terms.specs.declared.wire.Wire.{Wire};
ghost use Rattle.bb_base.specs.Named.{Named, IsNamed};
ghost use Rattle.bb_base.specs.Net.{Netlist, driven, reads};
ghost use Rattle.bb_terms.specs.Plan.{PlanValue};
ghost use Rattle.bb_terms.specs.Valid.{IsValidPlan};
ghost use Rattle.bb_written.specs.Falling.{HasNoLoop};
ghost use Rattle.bb_written.specs.Restricted.{KeepsFlops, RunsAsOriginal};
ghost use Rattle.bb_written.specs.Written.{written_netlist, inner_wires};
ghost use Rattle.std.specs.List.{AllByRecursion};
ghost use Rattle.std.specs.Prelude.{ℕ, ◌≡◌, ◌≢◌, AllPairs, Contains};

/// Outside a test the written netlist runs as the original does, and it has no loop where the original has none.
pub fn runs_alike()
    ensures original { (a : Netlist ℕ) (p : PlanValue) → KeepsFlops a p → RunsAsOriginal a p }
    ensures order { (a : Netlist ℕ) (p : PlanValue) → HasNoLoop a p }
{}

/// The added wires of a valid plan are added nets, and no two are equal.
pub fn inner_wires_differ()
    ensures added { (a : Named) (p : PlanValue) → IsValidPlan a.netlist p → AllByRecursion IsAdded (inner_wires a.netlist p) }
    ensures apart { (a : Named) (p : PlanValue) → IsValidPlan a.netlist p → AllPairs (λ (v : Wire) (w : Wire). v ≢ w) (inner_wires a.netlist p) }
{}

/// What the written netlist of a valid plan reads is driven.
pub fn reads_are_driven()
    ensures { (a : Named) (p : PlanValue) (w : Wire) → IsNamed a → IsValidPlan a.netlist p → Contains (reads (written_netlist a.netlist p)) w → Contains (driven (written_netlist a.netlist p)) w }
{}
