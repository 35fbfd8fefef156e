//! The rules on sessions.

ghost use Rattle.std.specs.Prelude.{◌≤◌, ℕ, List, length};
ghost use Rattle.bb_base.specs.Net.{Netlist, driven};
ghost use Rattle.bb_terms.specs.Plan.{PlanValue};
ghost use Rattle.bb_terms.specs.Rules.{Holds, Sessions, Compacted, Conflicts};
ghost use Rattle.bb_choose.specs.ChosenPlan.{AreCutsOf, IsChosen};

/// The sessions of a chosen plan list registers that may compact, ascending; each such register is in one; and no register of a session
/// holds a leaf of a line of one of them. There are at most 2,097,152 nets.
pub fn chosen_sessions_meet_the_rules()
    ensures sessions { (a : Netlist ℕ) (cuts : List ℕ) (most : ℕ) (p : PlanValue) → AreCutsOf a cuts → 1 ≤ most → length (driven a) ≤ 2097152 → IsChosen a cuts most p → Holds a p Sessions }
    ensures compacted { (a : Netlist ℕ) (cuts : List ℕ) (most : ℕ) (p : PlanValue) → AreCutsOf a cuts → 1 ≤ most → IsChosen a cuts most p → Holds a p Compacted }
    ensures conflicts { (a : Netlist ℕ) (cuts : List ℕ) (most : ℕ) (p : PlanValue) → AreCutsOf a cuts → 1 ≤ most → IsChosen a cuts most p → Holds a p Conflicts }
{}
