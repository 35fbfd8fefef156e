//! What `compile` counts, and what a plan lacks.

use crate::call::compiled;
use bb_cases::{
    WRITTEN, benchmark, constant, half, holds, no_gate, parity_tree, swap, toggle, wire,
};
use std::alloc::{AllocError, Global};
use std::test::Fail;

/// A gate of nine different inputs.
const NINE: &str =
    "module nine (a, b, c, d, e, f, g, h, i, y); input a, b, c, d, e, f, g, h, i; output y; and (y, a, b, c, d, e, f, g, h, i); endmodule";

/// A gate that reads one input nine times.
const ONE: &str =
    "module n (a, y); input a; output y; and (y, a, a, a, a, a, a, a, a, a); endmodule";

/// Whether so much is counted where a text is compiled with these options.
fn counts(alloc: Global, text: &str, options: &str, words: &str) -> Result<bool, AllocError> {
    let line = format!(in alloc; "done {words}")?;
    let (end, _) = compiled(alloc, text, options)?;
    Ok(end.says(0, line.as_str()))
}

#[test]
fn a_netlist_and_its_plan_are_counted(rt: HostRuntime) -> Result<(), Fail> {
    let rows = [
        (
            no_gate::TEXT,
            "gates 0 flops 0 cells 1 registers 1 sessions 0 degree 1 cycles 1",
        ),
        (
            wire::TEXT,
            "gates 1 flops 0 cells 2 registers 2 sessions 1 degree 1 cycles 5",
        ),
        (
            constant::TEXT,
            "gates 1 flops 0 cells 1 registers 1 sessions 1 degree 1 cycles 5",
        ),
        (
            toggle::TEXT,
            "gates 1 flops 1 cells 2 registers 2 sessions 1 degree 1 cycles 5",
        ),
        (
            swap::TEXT,
            "gates 0 flops 2 cells 2 registers 2 sessions 2 degree 1 cycles 9",
        ),
        (
            ONE,
            "gates 1 flops 0 cells 2 registers 2 sessions 1 degree 1 cycles 5",
        ),
        (
            benchmark::PLAIN,
            "gates 10 flops 3 cells 11 registers 2 sessions 1 degree 6 cycles 129",
        ),
        (
            benchmark::MADE,
            "gates 10 flops 3 cells 11 registers 2 sessions 1 degree 6 cycles 129",
        ),
    ];
    for (text, words) in rows {
        assert!(rt; counts(rt.alloc(), text, "", words)?, "{text}");
    }
    Ok(())
}

#[test]
fn an_option_is_met_by_the_plan(rt: HostRuntime) -> Result<(), Fail> {
    let rows = [
        (
            parity_tree::TEXT,
            " --width 4",
            "gates 31 flops 0 cells 43 registers 7 sessions 2 degree 6 cycles 257",
        ),
        (
            benchmark::PLAIN,
            " --max-degree 6",
            "gates 10 flops 3 cells 11 registers 2 sessions 1 degree 6 cycles 129",
        ),
        (
            half::TEXT,
            " --width 2",
            "gates 2 flops 0 cells 4 registers 2 sessions 1 degree 2 cycles 9",
        ),
        (
            half::TEXT,
            " --width 2 --max-cycles 9",
            "gates 2 flops 0 cells 4 registers 2 sessions 1 degree 2 cycles 9",
        ),
        (
            half::TEXT,
            " --width 2 --min-degree 3",
            "gates 2 flops 0 cells 4 registers 2 sessions 1 degree 3 cycles 17",
        ),
        (
            half::TEXT,
            " --width 2 --register=1",
            "gates 2 flops 0 cells 4 registers 4 sessions 1 degree 2 cycles 9",
        ),
    ];
    for (text, options, words) in rows {
        assert!(rt;
            counts(rt.alloc(), text, options, words)?,
            "{text}{options}"
        );
    }
    Ok(())
}

#[test]
fn what_a_plan_lacks_is_said(rt: HostRuntime) -> Result<(), Fail> {
    let rows = [
        (NINE, "", "gate y has 9 inputs over 8"),
        (
            benchmark::PLAIN,
            " --max-degree 5",
            "degree limit 5 at source G7",
        ),
        (half::TEXT, " --max-degree 1", "degree limit 1 for 4 cells"),
        (
            half::TEXT,
            " --width 2 --max-cycles 8",
            "cycle limit 8, needed 9",
        ),
    ];
    for (text, options, words) in rows {
        let line = format!(in rt.alloc(); "plan: {words}")?;
        let (end, store) = compiled(rt.alloc(), text, options)?;
        assert!(rt; end.refuses(line.as_str()), "{words}");
        assert!(rt; holds(&store, &WRITTEN, &["old"; 4]), "{words}");
    }
    Ok(())
}
