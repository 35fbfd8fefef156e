//! Laws about what is chosen, as contracts of functions without a body.

ghost use Rattle.std.specs.Prelude.{◌≤◌, ℕ, List, length};
ghost use Rattle.bb_base.specs.Net.{Netlist, IsNetlist, driven};
ghost use Rattle.bb_base.specs.Order.{IsOrder};
ghost use Rattle.bb_terms.specs.Plan.{PlanValue};
ghost use Rattle.bb_terms.specs.Valid.{IsValidPlan};
ghost use Rattle.bb_words.specs.declared.command.Settings.{Settings};
ghost use Rattle.bb_choose.specs.Arranged.{AreInRange};
ghost use Rattle.bb_choose.specs.Choice.{IsChosenPlan};

/// The plan that is chosen for a netlist of at most 2,097,152 nets, by settings in range, meets every rule.
pub fn chosen_plans_are_valid()
    ensures { (a : Netlist ℕ) (order : List ℕ) (settings : Settings) (p : PlanValue) → IsNetlist a → IsOrder a.gates order → length (driven a) ≤ 2097152
        → AreInRange settings → IsChosenPlan a order settings p → IsValidPlan a p }
{}
