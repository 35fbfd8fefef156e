//! The rules on cells and registers.

ghost use Rattle.std.specs.Prelude.{ℕ, List};
ghost use Rattle.bb_base.specs.Net.{Netlist};
ghost use Rattle.bb_terms.specs.Plan.{PlanValue};
ghost use Rattle.bb_terms.specs.Rules.{Holds, Kinds, Apart, Served, Pure};
ghost use Rattle.bb_choose.specs.ChosenPlan.{AreCutsOf, IsChosen};

/// Each cell of a chosen plan fits its net, no two meet on one, each net has the cells that it needs, and a register with an Input or a
/// Split cell has no others.
pub fn chosen_cells_meet_the_rules()
    ensures kinds { (a : Netlist ℕ) (cuts : List ℕ) (most : ℕ) (p : PlanValue) → AreCutsOf a cuts → IsChosen a cuts most p → Holds a p Kinds }
    ensures apart { (a : Netlist ℕ) (cuts : List ℕ) (most : ℕ) (p : PlanValue) → AreCutsOf a cuts → IsChosen a cuts most p → Holds a p Apart }
    ensures served { (a : Netlist ℕ) (cuts : List ℕ) (most : ℕ) (p : PlanValue) → AreCutsOf a cuts → IsChosen a cuts most p → Holds a p Served }
    ensures pure { (a : Netlist ℕ) (cuts : List ℕ) (most : ℕ) (p : PlanValue) → AreCutsOf a cuts → IsChosen a cuts most p → Holds a p Pure }
{}
