//! Laws, as contracts of functions without a body.

ghost use Rattle.std.specs.Prelude.{◌≡◌, ◌↔◌, ◌++◌, ℕ, Bool, List, map, Some, slice_get, Contains};
ghost use Rattle.std.specs.List.{AllByRecursion};
ghost use Rattle.bb_base.specs.Net.{Gate as GateValue, Netlist, IsNetlist, driven, reads, renamed_gate};
ghost use Rattle.bb_base.specs.Named.{Named, IsNamed};
ghost use Rattle.bb_net.specs.Sites.{Site, sited};
ghost use Rattle.bb_terms.specs.Paths.{Start, AtNet, starts, renamed_start, IsPathBack, IsReached, IsLeaf, LiesBehind};
ghost use Rattle.bb_terms.specs.Function.{IsBitOf};
ghost use Rattle.bb_terms.specs.declared.plan.Cell.{Cell};
ghost use Rattle.bb_terms.specs.Plan.{PlanValue, chain};
ghost use Rattle.bb_terms.specs.Lines.{is_stop, IsStart};
ghost use Rattle.bb_terms.specs.Rules.{Holds, Kinds, Served};
ghost use Rattle.bb_terms.specs.Valid.{IsValidPlan};
ghost use Rattle.bb_terms.specs.declared.wire.Wire.{Wire};
ghost use Rattle.bb_terms.specs.Reads.{read};
ghost use Rattle.bb_written.specs.Written.{wire_site, written_netlist, written};
ghost use Rattle.bb_normal.specs.Mirrors.{Mirrors};
ghost use Rattle.bb_ctl.specs.OwnNames.{HasOwnNames};
ghost use Rattle.bb_selftest.specs.Renaming.{IsRenaming};
ghost use Rattle.bb_selftest.specs.Segments.{StopsAtReads, HasSameSegment};
ghost use Rattle.bb_selftest.specs.WrittenLines.{IsObserver, read_site, line_site, is_read_site, sited_gate};
ghost use Rattle.bb_selftest.specs.WrittenSegments.{HasSegment};
ghost use Rattle.bb_selftest.specs.Covers.{Covers};
ghost use Rattle.bb_selftest.specs.Bounded.{IsBoundedLine};

/// Under names that tell nets apart, walks through the same gates are the same: each path is one, each path from a net that stands is
/// that of one, and the nets that are reached, the leaves and the gates that are passed are those of the walk from the same start.
pub fn walks_renamed()
    ensures path { (name : Wire → Site) (nets : List Wire) (gates : List (GateValue Wire)) (stop : Wire → Bool) (others : List (GateValue Site)) (stops : Site → Bool)
        → IsRenaming name nets gates stop others stops → (net : Wire) (path : List Wire) (last : Wire) → Contains nets net → AllByRecursion (Contains nets) path → Contains nets last
        → IsPathBack gates stop net path last ↔ IsPathBack others stops (name net) (map name path) (name last) }
    ensures image { (name : Wire → Site) (nets : List Wire) (gates : List (GateValue Wire)) (stop : Wire → Bool) (others : List (GateValue Site)) (stops : Site → Bool)
        → IsRenaming name nets gates stop others stops → (net : Wire) (path : List Site) (last : Site) → Contains nets net → IsPathBack others stops (name net) path last
        → (own : List Wire) × (end : Wire) × (map name own ≡ path) × (name end ≡ last) × IsPathBack gates stop net own end }
    ensures reached { (name : Wire → Site) (nets : List Wire) (gates : List (GateValue Wire)) (stop : Wire → Bool) (others : List (GateValue Site)) (stops : Site → Bool)
        → IsRenaming name nets gates stop others stops → (start : Start Wire) → AllByRecursion (Contains nets) (starts start) → (net : Site)
        → IsReached others stops (starts (renamed_start name start)) net ↔ ((own : Wire) × IsReached gates stop (starts start) own × (name own ≡ net)) }
    ensures leaves { (name : Wire → Site) (nets : List Wire) (gates : List (GateValue Wire)) (stop : Wire → Bool) (others : List (GateValue Site)) (stops : Site → Bool)
        → IsRenaming name nets gates stop others stops → (start : Start Wire) → AllByRecursion (Contains nets) (starts start) → (net : Site)
        → IsLeaf others stops (renamed_start name start) net ↔ ((own : Wire) × IsLeaf gates stop start own × (name own ≡ net)) }
    ensures passed { (name : Wire → Site) (nets : List Wire) (gates : List (GateValue Wire)) (stop : Wire → Bool) (others : List (GateValue Site)) (stops : Site → Bool)
        → IsRenaming name nets gates stop others stops → (start : Start Wire) → AllByRecursion (Contains nets) (starts start) → (gate : GateValue Site) → Contains others gate
        → LiesBehind others stops (renamed_start name start) gate ↔ ((own : GateValue Wire) × Contains gates own × LiesBehind gates stop start own × (renamed_gate name own ≡ gate)) }
{}

/// What is read of two nets differs.
pub fn reads_differ()
    ensures { (p : PlanValue) (m n : ℕ) → read p m ≡ read p n → m ≡ n }
{}

/// Over symbols each line has the segment that it has in the original.
pub fn segments_agree()
    ensures { (a : Netlist ℕ) (p : PlanValue) (stop : Wire → Bool) (i : ℕ) (c : Cell) (start : Start ℕ) → IsNetlist a → Holds a p Kinds → Holds a p Served → StopsAtReads a p stop
        → slice_get (chain p) i ≡ Some c → IsStart a c start → HasSameSegment a p stop c start }
{}

/// The sites of a valid plan's written netlist tell its nets apart, and walks that stop at the sites of reads stop at reads.
pub fn sites_tell_nets_apart()
    ensures renaming { (a b : Named) (p : PlanValue) → IsNamed a → HasOwnNames a → IsValidPlan a.netlist p → Mirrors (written a p) b
        → IsRenaming (wire_site a) (driven (written_netlist a.netlist p) ++ reads (written_netlist a.netlist p)) (written_netlist a.netlist p).gates
        (λ w. is_read_site a p (wire_site a w)) (sited b).netlist.gates (is_read_site a p) }
    ensures stops { (a : Named) (p : PlanValue) → IsNamed a → HasOwnNames a → IsValidPlan a.netlist p → StopsAtReads a.netlist p (λ w. is_read_site a p (wire_site a w)) }
{}

/// In a netlist whose drivers are the written one's, each line has the segment that it has in the original.
pub fn lines_have_segments()
    ensures { (a b : Named) (p : PlanValue) (i : ℕ) (c : Cell) (start : Start ℕ) → IsNamed a → HasOwnNames a → IsValidPlan a.netlist p → Mirrors (written a p) b
        → slice_get (chain p) i ≡ Some c → IsStart a.netlist c start → HasSegment a b p c start }
{}

/// And each line's function is the one that it has in the original, whatever its gates mean, where a leaf's bit is that of what is read of it.
pub fn functions_agree()
    ensures { (a b : Named) (p : PlanValue) (i : ℕ) (c : Cell) (start : Start ℕ) (gives : GateValue Site → List Bool → Bool) (bits : Site → Bool) (bit : Bool) → IsNamed a → HasOwnNames a
        → IsValidPlan a.netlist p → Mirrors (written a p) b → slice_get (chain p) i ≡ Some c → IsStart a.netlist c start
        → IsBitOf gives (sited b).netlist.gates (is_read_site a p) (AtNet (line_site a p c)) bits bit
        ↔ IsBitOf (λ g. gives (sited_gate a p g)) a.netlist.gates (is_stop a.netlist p) start (λ net. bits (read_site a p net)) bit }
{}

/// There the walk back from an observer's line ends at few reads, those of the line's leaves in the original.
pub fn lines_are_bounded()
    ensures { (a b : Named) (p : PlanValue) (i r : ℕ) (c : Cell) → IsNamed a → HasOwnNames a → IsValidPlan a.netlist p → Mirrors (written a p) b
        → IsObserver p i r c → IsBoundedLine a b p c }
{}

/// And each gate of the original from which a path leads to an output or to a flip-flop's d lies in the segment of an observer.
pub fn covers_every_gate()
    ensures { (a b : Named) (p : PlanValue) → IsNamed a → HasOwnNames a → IsValidPlan a.netlist p → Mirrors (written a p) b → Covers a b p }
{}
