//! Laws about the names of wires and about valid plans, as contracts of functions without a body.

ghost use Rattle.std.specs.Prelude.{◌≡◌, ℕ};
ghost use Rattle.bb_base.specs.Net.{Netlist};
ghost use Rattle.bb_terms.specs.Plan.{PlanValue};
ghost use Rattle.bb_terms.specs.Valid.{IsValidPlan};
ghost use Rattle.bb_terms.specs.Wires.{symbol_name, IsAdded};
ghost use Rattle.bb_ctl.specs.Numbers.{HasNumbers};

use bb_terms::Wire;

/// Different added nets have different names.
pub fn wires_differ()
    ensures { (v w : Wire) → IsAdded v → IsAdded w → symbol_name v ≡ symbol_name w → v ≡ w }
{}

/// The cells, registers and sessions of a valid plan have numbers.
pub fn valid_has_numbers()
    ensures { (a : Netlist ℕ) (p : PlanValue) → IsValidPlan a p → HasNumbers p }
{}
