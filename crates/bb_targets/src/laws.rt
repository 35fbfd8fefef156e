//! Laws, as contracts of functions without a body.

ghost use Rattle.std.specs.Prelude.{◌≡◌, None, Some};
ghost use Rattle.bb_fault.specs.declared.fault.ElabFault.{ElabFault};
ghost use Rattle.bb_parse.specs.declared.syntax.Module.{Module as ModuleValue};
ghost use Rattle.bb_scope.specs.Variables.{variables};
ghost use Rattle.bb_scope.specs.Parts.{bad_part};
ghost use Rattle.bb_drive.specs.Nets.{all_variables, driver_fault};
ghost use Rattle.bb_scope.specs.Making.{work_of};
ghost use Rattle.bb_targets.specs.Targets.{twice_fault};

/// A bit of a module's variables that is driven twice is the first fault of drivers that the gates of its items have, where the
/// items have no fault of pins, selects and widths.
pub fn told_before_gates()
    ensures { (m : ModuleValue) (fault : ElabFault) → bad_part m ≡ None → twice_fault (variables m) m.items ≡ Some fault
        → driver_fault (all_variables (variables m) (work_of (variables m) m.items)) (work_of (variables m) m.items) ≡ Some fault }
{}
