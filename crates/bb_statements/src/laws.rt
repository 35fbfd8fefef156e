//! Laws, as contracts of functions without a body.

ghost use Rattle.bb_rules.specs.Half.{half_plan};
ghost use Rattle.bb_statements.specs.Statements.{HasStatements, half_named, half_gates, half_flops, half_variables, toggle_named, toggle_written, toggle_gates, toggle_flops, toggle_variables, empty, empty_plan, empty_gates, empty_flops, empty_variables, idle, idle_plan, idle_gates, idle_flops, idle_variables, steady, steady_plan, steady_gates, steady_flops, steady_variables, pair, pair_plan, pair_gates, pair_flops, pair_variables};

/// Written netlists of small cases, statement by statement.
pub fn statements_are()
    ensures half { HasStatements half_named half_plan half_gates half_flops half_variables }
    ensures toggle { HasStatements toggle_named toggle_written toggle_gates toggle_flops toggle_variables }
    ensures empty { HasStatements empty empty_plan empty_gates empty_flops empty_variables }
    ensures idle { HasStatements idle idle_plan idle_gates idle_flops idle_variables }
    ensures steady { HasStatements steady steady_plan steady_gates steady_flops steady_variables }
    ensures pair { HasStatements pair pair_plan pair_gates pair_flops pair_variables }
{}
