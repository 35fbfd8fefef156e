//! Laws about the plans of small cases, as contracts of functions without a body.

ghost use Rattle.std.specs.Prelude.{◌≡◌, [], ◌∷◌};
ghost use Rattle.bb_terms.specs.declared.kind.Kind.TheVariants.{State, Watch, Output};
ghost use Rattle.bb_terms.specs.Plan.{observers};
ghost use Rattle.bb_terms.specs.Register.{IsFullPeriod};
ghost use Rattle.bb_terms.specs.Signatures.{AreSignatures};
ghost use Rattle.bb_terms.specs.Valid.{IsValidFor, IsRuleFault};
ghost use Rattle.bb_rules.specs.Half.{half, half_with, half_plan, half_valid, cell_on};
ghost use Rattle.bb_rules.specs.Toggle.{toggle, toggle_with, toggle_plan, toggle_valid};

/// The plan of the half adder is valid, with its segments and duals, and its signature is 2.
pub fn half_is()
    ensures observers { observers half_plan ≡ (2, cell_on Output 2 0) ∷ (3, cell_on Output 3 0) ∷ [] }
    ensures full { IsFullPeriod 2 3 }
    ensures valid { IsValidFor half half_valid }
    ensures signed { AreSignatures half half_plan ((2 ∷ []) ∷ []) }
{}

/// Plans of the half adder that fail a rule: a mask with a tap too many, a register that a session lists twice or that none lists, a
/// column with a bit too many, two equal columns, and a walk that is back after three steps.
pub fn half_fails()
    ensures mask { IsRuleFault half (half_with 4 2 ((1 ∷ []) ∷ [])) 1 0 }
    ensures twice { IsRuleFault half (half_with 3 2 ((1 ∷ 1 ∷ []) ∷ [])) 7 0 }
    ensures never { IsRuleFault half (half_with 3 2 []) 8 1 }
    ensures column { IsRuleFault half (half_with 3 4 ((1 ∷ []) ∷ [])) 10 1 }
    ensures codes { IsRuleFault half (half_with 3 1 ((1 ∷ []) ∷ [])) 13 2 }
    ensures walk { IsRuleFault half (half_with 2 2 ((1 ∷ []) ∷ [])) 14 3 }
{}

/// The plan of a flip-flop that reads itself, with a Split and a Watch cell, is valid, and its signature is 1.
pub fn toggle_is()
    ensures valid { IsValidFor toggle toggle_valid }
    ensures signed { AreSignatures toggle toggle_plan ((1 ∷ []) ∷ []) }
{}

/// Plans of that flip-flop that fail a rule: a State cell, which holds a leaf of its own line, a Watch cell without a Split cell, and a State
/// cell beside a Watch cell.
pub fn toggle_fails()
    ensures itself { IsRuleFault toggle (toggle_with ((cell_on State 0 1 ∷ []) ∷ []) ((0 ∷ []) ∷ [])) 12 0 }
    ensures alone { IsRuleFault toggle (toggle_with ((cell_on Watch 0 0 ∷ []) ∷ []) ((0 ∷ []) ∷ [])) 5 0 }
    ensures twice { IsRuleFault toggle (toggle_with ((cell_on State 0 1 ∷ []) ∷ (cell_on Watch 0 0 ∷ []) ∷ []) ((0 ∷ []) ∷ [])) 4 1 }
{}
