// The written netlist, and its runs. Half adders are run by hand: the states are 0, 1, 3 and 2.

ghost use Rattle.std.specs.Prelude.{IfSome};
ghost use Rattle.bb_base.specs.Order.{IsOrder};

use crate::netlists::{read, woven};
use crate::plans::Row;
use crate::runs::{first_outputs, outputs, shows};
use crate::texts::{CUT, HALF, IDLE, LATE, MADE, ONE, STUCK, SUM, SWAP, TOGGLE, WIRE, tested_half};
use bb_net::Named;
use bb_netlist::Order;
use bb_spell::append_text;
use bb_terms::Kind;
use std::alloc::Global;

/// A half adder with the self-test of one session, in which one register compacts both outputs; and the order of its gates.
fn half(alloc: Global) -> Option<(Named, Order)>
    ensures { IfSome result (λ found. IsOrder found.0.netlist.gates found.1) }
{
    let inputs: &[Row] = &[(Kind::Input, 0, 1), (Kind::Input, 1, 2)];
    let outputs: &[Row] = &[(Kind::Output, 2, 0), (Kind::Output, 3, 0)];
    woven(alloc, HALF, 2, &[inputs, outputs], &[&[1]])
}

/// Whether the netlist of a half adder with its self-test has its text, with this statement for the sum.
fn is_written(alloc: Global, sum: &str) -> bool {
    let Some((named, _)) = half(alloc) else {
        return false;
    };
    let Ok(text) = tested_half(alloc, sum) else {
        return false;
    };
    let mut written = Vec::new(alloc);
    match append_text(alloc, &named, &mut written) {
        Ok(()) => written.as_slice() == text.as_bytes(),
        Err(_) => false,
    }
}

/// Whether outside a test the netlist of a half adder with its self-test adds: its outputs are the sum, the carry, and no test's.
fn adds(alloc: Global, start: bool, init: bool, a: bool, b: bool, wanted: &[u8]) -> bool {
    let Some((named, order)) = half(alloc) else {
        return false;
    };
    let Ok(mut state) = vec![in alloc; start; named.netlist().flops().len()] else {
        return false;
    };
    match outputs(alloc, &named, &order, &[a, b, false, init], &mut state) {
        Some(found) => found.as_slice() == wanted,
        None => false,
    }
}

/// Whether the test run of a half adder with its self-test shows this, from all bits 0 and from all bits 1.
fn tests_half(alloc: Global, start: bool, a: bool, b: bool, serial: &[u8], done: &[u8]) -> bool {
    let found = half(alloc);
    shows(alloc, &found, &[a, b], start, serial, done)
}

/// Whether the test run of the text of a half adder with its self-test shows this, with this statement for the sum.
fn tests_text(
    alloc: Global,
    sum: &str,
    start: bool,
    own: &[bool],
    serial: &[u8],
    done: &[u8],
) -> bool {
    match tested_half(alloc, sum) {
        Ok(text) => {
            let found = read(alloc, text.as_str());
            shows(alloc, &found, own, start, serial, done)
        }
        Err(_) => false,
    }
}

/// Whether the outputs are these in the first run cycle of the text of a half adder with its self-test, with this statement for the sum.
fn begins_with(alloc: Global, sum: &str, start: bool, own: &[bool], wanted: &[u8]) -> bool {
    let Ok(text) = tested_half(alloc, sum) else {
        return false;
    };
    let Some((named, order)) = read(alloc, text.as_str()) else {
        return false;
    };
    match first_outputs(alloc, &named, &order, own, start) {
        Some(found) => found.as_slice() == wanted,
        None => false,
    }
}

/// Whether the test run of a plan shows this.
fn tests(
    alloc: Global,
    text: &str,
    degree: u32,
    rows: &[&[Row]],
    compact: &[&[u32]],
    start: bool,
    own: &[bool],
    serial: &[u8],
    done: &[u8],
) -> bool {
    let found = woven(alloc, text, degree, rows, compact);
    shows(alloc, &found, own, start, serial, done)
}

#[test]
fn a_half_adder_is_written_with_its_self_test(rt: HostRuntime) {
    assert!(rt; is_written(rt.alloc(), SUM));
    assert!(rt; !is_written(rt.alloc(), STUCK));
}

#[test]
fn outside_a_test_a_half_adder_adds(rt: HostRuntime) {
    let rows: [(bool, bool, &[u8]); 4] = [
        (false, false, b"0000"),
        (false, true, b"1000"),
        (true, false, b"1000"),
        (true, true, b"0100"),
    ];
    for (a, b, wanted) in rows {
        assert!(rt; adds(rt.alloc(), false, false, a, b, wanted));
        assert!(rt; adds(rt.alloc(), true, false, a, b, wanted));
        assert!(rt; adds(rt.alloc(), true, true, a, b, wanted));
    }
}

#[test]
fn a_half_adder_passes_from_any_state_under_any_inputs(rt: HostRuntime) {
    let serial = b"000001000000";
    let done = b"000000000111";
    assert!(rt; tests_half(rt.alloc(), false, false, true, serial, done));
    assert!(rt; tests_half(rt.alloc(), true, true, true, serial, done));
    assert!(rt; tests_text(rt.alloc(), SUM, true, &[true, false], serial, done));
}

#[test]
fn a_sum_that_is_constant_shows(rt: HostRuntime) {
    let serial = b"000000000000";
    let done = b"000000000111";
    assert!(rt; tests_text(rt.alloc(), STUCK, false, &[false, false], serial, done));
    assert!(rt; tests_text(rt.alloc(), STUCK, true, &[true, false], serial, done));
}

#[test]
fn a_sum_that_is_constant_differs_in_the_first_run_cycle(rt: HostRuntime) {
    assert!(rt; begins_with(rt.alloc(), SUM, false, &[false, true], b"0000"));
    assert!(rt; begins_with(rt.alloc(), SUM, true, &[true, true], b"0000"));
    assert!(rt; begins_with(rt.alloc(), STUCK, false, &[false, true], b"1000"));
    assert!(rt; begins_with(rt.alloc(), STUCK, true, &[true, true], b"1000"));
}

#[test]
fn a_half_adder_has_its_signatures_in_other_plans(rt: HostRuntime) {
    let sources: &[Row] = &[(Kind::Input, 0, 1), (Kind::Input, 1, 2)];
    let sums: &[Row] = &[(Kind::Output, 2, 0), (Kind::Output, 3, 0)];
    assert!(rt;
        tests(
            rt.alloc(),
            HALF,
            3,
            &[sources, sums],
            &[&[1]],
            true,
            &[true, false],
            b"000000000110000000",
            b"000000000000000001"
        )
    );
    let (a, b): (&[Row], &[Row]) = (&[(Kind::Input, 0, 1)], &[(Kind::Input, 1, 2)]);
    let (s, c): (&[Row], &[Row]) = (&[(Kind::Output, 2, 0)], &[(Kind::Output, 3, 0)]);
    assert!(rt;
        tests(
            rt.alloc(),
            HALF,
            2,
            &[a, b, s, c],
            &[&[2, 3]],
            true,
            &[true, true],
            b"0000010000",
            b"0000000001"
        )
    );
}

#[test]
fn a_test_without_sessions_is_over_at_once(rt: HostRuntime) {
    let input: &[Row] = &[(Kind::Input, 0, 0)];
    assert!(rt;
        tests(
            rt.alloc(),
            IDLE,
            1,
            &[input],
            &[],
            true,
            &[true],
            b"0000",
            b"0111"
        )
    );
}

#[test]
fn a_register_in_two_sessions_signs_in_both(rt: HostRuntime) {
    let input: &[Row] = &[(Kind::Input, 0, 1)];
    let output: &[Row] = &[(Kind::Output, 1, 0)];
    assert!(rt;
        tests(
            rt.alloc(),
            WIRE,
            1,
            &[input, output],
            &[&[1], &[1]],
            true,
            &[false],
            b"0001000100",
            b"0000000001"
        )
    );
}

#[test]
fn a_cut_net_is_signed_and_then_what_reads_its_cell(rt: HostRuntime) {
    let sources: &[Row] = &[(Kind::Input, 0, 1), (Kind::Input, 1, 2)];
    let cut: &[Row] = &[(Kind::Cut, 3, 1)];
    let output: &[Row] = &[(Kind::Output, 2, 0)];
    assert!(rt;
        tests(
            rt.alloc(),
            CUT,
            2,
            &[sources, cut, output],
            &[&[1], &[2]],
            true,
            &[true, false],
            b"000000100000010000",
            b"000000000000000001"
        )
    );
}

#[test]
fn a_flip_flop_behind_a_made_wire_has_its_signature(rt: HostRuntime) {
    let input: &[Row] = &[(Kind::Input, 0, 1)];
    let state: &[Row] = &[(Kind::State, 1, 1)];
    assert!(rt;
        tests(
            rt.alloc(),
            LATE,
            1,
            &[input, state],
            &[&[1]],
            true,
            &[true],
            b"0001000",
            b"0000011"
        )
    );
}

#[test]
fn a_wire_and_a_constant_have_their_signatures(rt: HostRuntime) {
    let input: &[Row] = &[(Kind::Input, 0, 1)];
    let output: &[Row] = &[(Kind::Output, 1, 0)];
    let wire: &[&[Row]] = &[input, output];
    assert!(rt;
        tests(
            rt.alloc(),
            WIRE,
            1,
            wire,
            &[&[1]],
            false,
            &[true],
            b"0001000",
            b"0000011"
        )
    );
    assert!(rt;
        tests(
            rt.alloc(),
            WIRE,
            1,
            wire,
            &[&[1]],
            true,
            &[false],
            b"0001000",
            b"0000011"
        )
    );
    assert!(rt;
        tests(
            rt.alloc(),
            MADE,
            1,
            wire,
            &[&[1]],
            true,
            &[false],
            b"0001000",
            b"0000011"
        )
    );
    let only: &[Row] = &[(Kind::Output, 0, 0)];
    assert!(rt;
        tests(
            rt.alloc(),
            ONE,
            1,
            &[only],
            &[&[0]],
            true,
            &[],
            b"0000000",
            b"0000011"
        )
    );
}

#[test]
fn flip_flops_have_their_signatures(rt: HostRuntime) {
    let split: &[Row] = &[(Kind::Split, 0, 1)];
    let watch: &[Row] = &[(Kind::Watch, 0, 0)];
    let toggle: &[&[Row]] = &[split, watch];
    assert!(rt;
        tests(
            rt.alloc(),
            TOGGLE,
            1,
            toggle,
            &[&[1]],
            false,
            &[],
            b"0001000",
            b"0000011"
        )
    );
    assert!(rt;
        tests(
            rt.alloc(),
            TOGGLE,
            1,
            toggle,
            &[&[1]],
            true,
            &[],
            b"0001000",
            b"0000011"
        )
    );
    let first: &[Row] = &[(Kind::State, 0, 1)];
    let second: &[Row] = &[(Kind::State, 1, 1)];
    let swap: &[&[Row]] = &[first, second];
    let serial = b"00001001000";
    let done = b"00000000011";
    assert!(rt;
        tests(
            rt.alloc(),
            SWAP,
            1,
            swap,
            &[&[0], &[1]],
            false,
            &[],
            serial,
            done
        )
    );
    assert!(rt;
        tests(
            rt.alloc(),
            SWAP,
            1,
            swap,
            &[&[0], &[1]],
            true,
            &[],
            serial,
            done
        )
    );
}
