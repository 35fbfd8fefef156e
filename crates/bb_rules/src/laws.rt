//! Laws about plans, as contracts of functions without a body.

ghost use Rattle.std.specs.Prelude.{◌≡◌, ◌↔◌, ◌⊎◌, ◌<◌, ◌^◌, ℕ, Bool, true, false, Contains, List, [], ◌∷◌, length, map, Some, slice_get, slice_index};
ghost use Rattle.bb_base.specs.Net.{Gate, Flop, Netlist, IsNetlist, driven};
ghost use Rattle.bb_base.specs.Order.{HasOrder};
ghost use Rattle.bb_terms.specs.Paths.{Start, AtNet, is_free};
ghost use Rattle.bb_base.specs.Dual.{AreDuals};
ghost use Rattle.bb_terms.specs.Register.{IsFullPeriod, state_after};
ghost use Rattle.bb_terms.specs.declared.kind.Kind.TheVariants.{State, Split, Cut, Watch, Output};
ghost use Rattle.bb_terms.specs.declared.plan.Cell.{Cell};
ghost use Rattle.bb_terms.specs.Kinds.{is_source, is_flop, is_observer, has_line, takes_d};
ghost use Rattle.bb_terms.specs.Plan.{PlanValue, IsCell, chain, observers, compacts};
ghost use Rattle.bb_terms.specs.Lines.{d_of, is_stop, IsStart, IsLeafOf, source_of, column_of};
ghost use Rattle.bb_terms.specs.Rules.{Holds, FailsAt, Rule, Frame, Kinds, Apart, Served, Sessions, Columns, Conflicts, Codes, Period, meet, IsInput, IsQ, HasKind};
ghost use Rattle.bb_terms.specs.Valid.{IsValidPlan, IsValidFor, IsRuleFault, ValidValue, SegmentValue, IsSegmentOf, column_at};
ghost use Rattle.bb_terms.specs.Signatures.{AreSignatures, code_at};
ghost use Rattle.bb_terms.specs.Sources.{IsSourceAt, IsGenerated};
ghost use Rattle.bb_rules.specs.Covered.{IsUsed, IsCovered};

/// A rule holds or fails, never both, and it fails first at one place. A plan has one first fault at most, and a valid plan none.
pub fn one_fault()
    ensures one { (a : Netlist ℕ) (p : PlanValue) (n x m y : ℕ) → IsRuleFault a p n x → IsRuleFault a p m y → (n ≡ m) × (x ≡ y) }
    ensures none { (a : Netlist ℕ) (p : PlanValue) (n x : ℕ) → IsValidPlan a p → IsRuleFault a p n x → ⊥ }
    ensures never_both { (a : Netlist ℕ) (p : PlanValue) (rule : Rule) (x : ℕ) → Holds a p Frame → Holds a p rule → FailsAt a p rule x → ⊥ }
    ensures place { (a : Netlist ℕ) (p : PlanValue) (rule : Rule) (x y : ℕ) → FailsAt a p rule x → FailsAt a p rule y → x ≡ y }
{}

/// The cells of registers are those of the chain, each in one register. Where no two sources meet, a source cell is found by its
/// net, with its register and its column.
pub fn cells_stand()
    ensures at { (p : PlanValue) (i r : ℕ) (c : Cell) → IsCell p i r c → slice_get (chain p) i ≡ Some c }
    ensures register { (p : PlanValue) (i : ℕ) (c : Cell) → slice_get (chain p) i ≡ Some c → (r : ℕ) × IsCell p i r c }
    ensures one_register { (p : PlanValue) (i r q : ℕ) (c d : Cell) → IsCell p i r c → IsCell p i q d → (r ≡ q) × (c ≡ d) }
    ensures source { (a : Netlist ℕ) (p : PlanValue) (i r : ℕ) (c : Cell) → Holds a p Apart → IsCell p i r c → is_source c.kind ≡ true
        → source_of p c.net ≡ Some (r, c) }
    ensures column { (a : Netlist ℕ) (p : PlanValue) (i : ℕ) (c : Cell) → Holds a p Apart → slice_get (chain p) i ≡ Some c → is_source c.kind ≡ true
        → column_of p c.net ≡ c.column }
{}

/// Walks stop exactly at inputs, q's and cut nets, and where cells fit and nets are served, exactly at the nets with a source cell.
pub fn stops_agree()
    ensures stops { (a : Netlist ℕ) (p : PlanValue) (net : ℕ) → IsNetlist a → net < length (driven a)
        → (is_stop a p net ≡ true) ↔ (IsInput a net ⊎ (IsQ a net ⊎ HasKind p Cut net)) }
    ensures sources { (a : Netlist ℕ) (p : PlanValue) (net : ℕ) → IsNetlist a → Holds a p Kinds → Holds a p Served → net < length (driven a)
        → (is_stop a p net ≡ true) ↔ ((i : ℕ) × IsSourceAt p net i) }
{}

/// A leaf of a line is a net and has exactly one source cell.
pub fn one_source()
    ensures within { (a : Netlist ℕ) (p : PlanValue) (i net : ℕ) (c : Cell) → IsNetlist a → Holds a p Kinds → slice_get (chain p) i ≡ Some c
        → IsLeafOf a p c net → net < length (driven a) }
    ensures some { (a : Netlist ℕ) (p : PlanValue) (i net : ℕ) (c : Cell) → IsNetlist a → Holds a p Kinds → Holds a p Served → slice_get (chain p) i ≡ Some c
        → IsLeafOf a p c net → (j : ℕ) × IsSourceAt p net j }
    ensures one { (a : Netlist ℕ) (p : PlanValue) (net i j : ℕ) → Holds a p Apart → IsSourceAt p net i → IsSourceAt p net j → i ≡ j }
{}

/// A line starts somewhere, and at one place.
pub fn lines_start()
    ensures some { (a : Netlist ℕ) (p : PlanValue) (i : ℕ) (c : Cell) → Holds a p Kinds → slice_get (chain p) i ≡ Some c → has_line c.kind ≡ true
        → (start : Start ℕ) × IsStart a c start }
    ensures one { (a : Netlist ℕ) (c : Cell) (x y : Start ℕ) → IsNetlist a → IsStart a c x → IsStart a c y → x ≡ y }
{}

/// A cell gives the q of each flip-flop, and a cell observes its d. A cell that is a flip-flop stands on a net that no gate drives.
pub fn flops_have_cells()
    ensures gives { (a : Netlist ℕ) (p : PlanValue) (f : Flop ℕ) → IsNetlist a → Holds a p Served → Contains a.flops f
        → (c : Cell) × Contains (chain p) c × (is_flop c.kind ≡ true) × (c.net ≡ f.q) }
    ensures takes { (a : Netlist ℕ) (p : PlanValue) (f : Flop ℕ) → IsNetlist a → Holds a p Served → Contains a.flops f
        → (c : Cell) × Contains (chain p) c × (takes_d c.kind ≡ true) × (c.net ≡ f.q) × IsStart a c (AtNet f.d) }
    ensures free { (a : Netlist ℕ) (p : PlanValue) (i : ℕ) (c : Cell) → IsNetlist a → Holds a p Kinds → slice_get (chain p) i ≡ Some c → is_flop c.kind ≡ true
        → is_free a.gates c.net ≡ true }
    ensures d { (a : Netlist ℕ) (f : Flop ℕ) → IsNetlist a → Contains a.flops f → d_of a.flops f.q ≡ f.d }
{}

/// Each gate from which a path through gates leads to an output or to a flip-flop's d lies in the segment of an observer.
pub fn all_observed()
    ensures { (a : Netlist ℕ) (p : PlanValue) (g : Gate ℕ) → IsNetlist a → Holds a p Served → Contains a.gates g → IsUsed a g → IsCovered a p g }
{}

/// In a session each cell of a register that compacts observes, and each leaf of its line has its source cell in a register that generates.
pub fn generates()
    ensures observes { (a : Netlist ℕ) (p : PlanValue) (s r i : ℕ) (c : Cell) → Holds a p Sessions → compacts p.sessions r s ≡ true → IsCell p i r c
        → is_observer c.kind ≡ true }
    ensures apart { (a : Netlist ℕ) (p : PlanValue) (s r i q j : ℕ) (c source : Cell) → Holds a p Conflicts → compacts p.sessions r s ≡ true
        → IsCell p i r c → is_observer c.kind ≡ true → IsCell p j q source → is_source source.kind ≡ true → IsLeafOf a p c source.net
        → compacts p.sessions q s ≡ false }
    ensures leaves { (a : Netlist ℕ) (p : PlanValue) (s r i net : ℕ) (c : Cell) → IsNetlist a → Holds a p Kinds → Holds a p Served → Holds a p Sessions
        → Holds a p Conflicts → compacts p.sessions r s ≡ true → IsCell p i r c → IsLeafOf a p c net → IsGenerated p s net }
{}

/// A plan has one list of segments at most, and a segment has the source cell of each leaf.
pub fn segments_are_one()
    ensures one { (a : Netlist ℕ) (v w : ValidValue) → IsValidFor a v → IsValidFor a w → v.plan ≡ w.plan → v ≡ w }
    ensures leaves { (a : Netlist ℕ) (p : PlanValue) (i net : ℕ) (c : Cell) (segment : SegmentValue) → IsNetlist a → Holds a p Kinds → Holds a p Served
        → slice_get (chain p) i ≡ Some c → IsSegmentOf a p (i, c) segment → IsLeafOf a p c net → (j : ℕ) × Contains segment.leaves j × IsSourceAt p net j }
{}

/// The duals of a segment are duals of its source cells' columns, and as short as states.
pub fn duals_are()
    ensures duals { (a : Netlist ℕ) (p : PlanValue) (observer : ℕ × Cell) (segment : SegmentValue) → IsSegmentOf a p observer segment
        → AreDuals (map (column_at p) segment.leaves) segment.duals }
    ensures below { (a : Netlist ℕ) (p : PlanValue) (observer : ℕ × Cell) (segment : SegmentValue) → Holds a p Columns → IsSegmentOf a p observer segment
        → (place : ℕ) → place < length segment.duals → slice_index segment.duals place < 2 ^ p.degree }
{}

/// Each vector of bits of an observer's leaves is their code at a state of the walk.
pub fn vectors_come()
    ensures { (a : Netlist ℕ) (p : PlanValue) (i : ℕ) (c : Cell) → IsNetlist a → Holds a p Columns → Holds a p Codes → Holds a p Period
        → slice_get (chain p) i ≡ Some c → is_observer c.kind ≡ true → (u : ℕ → Bool)
        → (t : ℕ) × (t < 2 ^ p.degree) × ((net : ℕ) → IsLeafOf a p c net → code_at p (state_after p.degree p.mask t) net ≡ u net) }
{}

/// A plan has exactly one list of signatures.
pub fn signatures_are_one()
    ensures one { (a : Netlist ℕ) (p : PlanValue) (xs ys : List (List ℕ)) → IsNetlist a → HasOrder a.gates → AreSignatures a p xs → AreSignatures a p ys → xs ≡ ys }
    ensures some { (a : Netlist ℕ) (p : PlanValue) → IsNetlist a → HasOrder a.gates → Holds a p Kinds → Holds a p Sessions
        → (xs : List (List ℕ)) × AreSignatures a p xs }
{}

/// Which kinds meet on one net.
pub fn kinds_meet()
    ensures split { meet Split Watch ≡ false }
    ensures flop { meet State Watch ≡ true }
    ensures net { meet Cut Output ≡ true }
    ensures sources { meet State Split ≡ true }
{}
