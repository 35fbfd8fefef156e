//! Laws, as contracts of functions without a body.

ghost use Rattle.std.specs.Prelude.{◌≡◌, ◌++◌, ℕ, List, Bool, map, Contains};
ghost use Rattle.bb_base.specs.Net.{Gate as GateValue, renamed_gate, driven, reads};
ghost use Rattle.bb_base.specs.Run.{IsTrace, IsRunBy, states, at};
ghost use Rattle.bb_base.specs.Order.{HasOrder};
ghost use Rattle.bb_base.specs.Named.{Named, IsNamed};
ghost use Rattle.bb_net.specs.Sites.{Site, sited};
ghost use Rattle.bb_terms.specs.Plan.{PlanValue};
ghost use Rattle.bb_terms.specs.declared.wire.Wire.{Wire};
ghost use Rattle.bb_written.specs.Written.{wire_site, written_netlist, written};
ghost use Rattle.bb_terms.specs.Rules.{Holds, Served};
ghost use Rattle.bb_terms.specs.Valid.{IsValidPlan};
ghost use Rattle.bb_normal.specs.Mirrors.{Mirrors};
ghost use Rattle.bb_normal.specs.Normal.{KeepsBits, Normal};
ghost use Rattle.bb_ctl.specs.OwnNames.{HasOwnNames};

/// A netlist that is the written one is one by its drivers.
pub fn mirrors_itself()
    ensures { (a b : Named) (p : PlanValue) → sited b ≡ written a p → Mirrors (written a p) b }
{}

/// No two nets of a valid plan's written netlist have one site.
pub fn written_sites_differ()
    ensures { (a : Named) (p : PlanValue) (v w : Wire) → IsNamed a → HasOwnNames a → IsValidPlan a.netlist p
        → Contains (driven (written_netlist a.netlist p) ++ reads (written_netlist a.netlist p)) v
        → Contains (driven (written_netlist a.netlist p) ++ reads (written_netlist a.netlist p)) w → wire_site a v ≡ wire_site a w → v ≡ w }
{}

/// Bits of a netlist whose drivers are the written one's are, read at each symbol's site, bits of the table over symbols: each
/// trace is a trace, and each run a run with the same inputs, whatever the gates mean.
pub fn mirrors_traces()
    ensures trace { (a b : Named) (p : PlanValue) (gives : GateValue Site → List Bool → Bool) (cycles : ℕ) (v : ℕ → Site → Bool) → Mirrors (written a p) b
        → IsTrace gives (sited b).netlist.gates (sited b).netlist.flops cycles v
        → IsTrace (λ g. gives (renamed_gate (wire_site a) g)) (written_netlist a.netlist p).gates (written_netlist a.netlist p).flops cycles (λ c w. v c (wire_site a w)) }
    ensures run { (a b : Named) (p : PlanValue) (gives : GateValue Site → List Bool → Bool) (s : List Bool) (is : List (List Bool)) (vs : List (Site → Bool)) → Mirrors (written a p) b
        → IsRunBy gives (sited b).netlist s is vs
        → IsRunBy (λ g. gives (renamed_gate (wire_site a) g)) (written_netlist a.netlist p) (states (written_netlist a.netlist p) (λ w. at vs 0 (wire_site a w))) is (map (λ v w. v (wire_site a w)) vs) }
{}

/// Where each flip-flop of the original has a cell, a netlist whose drivers are the written one's keeps the original's bits outside a test.
pub fn keeps_bits()
    ensures { (a b : Named) (p : PlanValue) → IsNamed a → HasOrder a.netlist.gates → Holds a.netlist p Served → Mirrors (written a p) b → KeepsBits (sited a).netlist (sited b).netlist }
{}

/// For a valid plan a named netlist whose drivers are the written one's runs, outside a test, as the original does, and its gates have
/// an order.
pub fn runs_normally()
    ensures normal { (a b : Named) (p : PlanValue) → IsNamed a → IsNamed b → HasOwnNames a → IsValidPlan a.netlist p → Mirrors (written a p) b
        → Normal (sited a).netlist (sited b).netlist }
    ensures order { (a b : Named) (p : PlanValue) → IsNamed a → IsNamed b → HasOwnNames a → IsValidPlan a.netlist p → Mirrors (written a p) b
        → HasOrder b.netlist.gates }
{}
