//! Laws about what items make, as contracts of functions without a body.

ghost use Rattle.std.specs.Prelude.{◌≡◌, ℕ, Bool, true, List, None, map};
ghost use Rattle.std.specs.List.{AllByRecursion};
ghost use Rattle.bb_base.specs.Variables.{Entry};
ghost use Rattle.bb_base.specs.Run.{Meets};
ghost use Rattle.bb_parse.specs.declared.syntax.Module.{Module as ModuleValue};
ghost use Rattle.bb_parse.specs.Trees.{Expr as ExprTree, File as FileTree};
ghost use Rattle.bb_parse.specs.Meaning.{steps_of, module_of};
ghost use Rattle.bb_scope.specs.Names.{steps_names};
ghost use Rattle.bb_scope.specs.Variables.{variables};
ghost use Rattle.bb_scope.specs.Sizes.{expr_fault};
ghost use Rattle.bb_scope.specs.Parts.{bad_part, all_bits};
ghost use Rattle.bb_drive.specs.Nets.{is_variable};
ghost use Rattle.bb_fault.specs.Work.{Work};
ghost use Rattle.bb_scope.specs.Making.{terminal_made, work_of};
ghost use Rattle.bb_meaning.specs.Values.{Bits, value, reference_bits};
ghost use Rattle.bb_meaning.specs.Statements.{AreBitsOf, StatementHolds, IsWorkCycle};

/// In every cycle of what a text's items make, and the one behind it, each statement of the text holds of the bits of its variables.
pub fn statements_hold()
    ensures { (f : FileTree) (v w : ℕ → Bool) (bits next : Bits) → bad_part (module_of f) ≡ None → IsWorkCycle (work_of (variables (module_of f)) (module_of f).items) v w
        → AreBitsOf (variables (module_of f)) v bits → AreBitsOf (variables (module_of f)) w next
        → AllByRecursion (StatementHolds (reference_bits (variables (module_of f)) bits) (reference_bits (variables (module_of f)) next)) f.statements }
{}

/// The nets that an expression makes at a terminal have the bits of its value.
pub fn expressions_mean()
    ensures { (vars : List Entry) (v : ℕ → Bool) (bits : Bits) (line width : ℕ) (e : ExprTree) (w : Work) → AllByRecursion (λ name. is_variable vars name ≡ true) (steps_names (steps_of e))
        → expr_fault vars line width (steps_of e) ≡ None → AllByRecursion (Meets v) (terminal_made vars (steps_of e) w).1.gates → AreBitsOf vars v bits
        → map v (terminal_made vars (steps_of e) w).0 ≡ value (reference_bits vars bits) e }
{}

/// The bits that are counted before any gate is made are those of the variables and the nets that the items then make.
pub fn counted_nets_are_made()
    ensures { (m : ModuleValue) → bad_part m ≡ None → (work_of (variables m) m.items).fresh ≡ all_bits m }
{}
