//! Laws about what is woven, as contracts of functions without a body.

ghost use Rattle.std.specs.Prelude.{◌≤◌};
ghost use Rattle.bb_base.specs.Variables.{bit_count};
ghost use Rattle.bb_base.specs.Named.{Named, IsNamed};
ghost use Rattle.bb_terms.specs.Plan.{PlanValue};
ghost use Rattle.bb_terms.specs.Valid.{IsValidPlan};
ghost use Rattle.bb_written.specs.Written.{written_variables};
ghost use Rattle.bb_ctl.specs.OwnNames.{HasOwnNames};
ghost use Rattle.bb_lay.specs.Laying.{CanStand};

/// The variables of a valid plan's written netlist can stand together: their names differ, ports come first, and they have few bits.
pub fn written_variables_stand()
    ensures { (a : Named) (p : PlanValue) → IsNamed a → HasOwnNames a → IsValidPlan a.netlist p → bit_count a.variables ≤ 2097152 → CanStand (written_variables a p) }
{}
