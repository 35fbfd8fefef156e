// The worked rows of the job.

use crate::made::{certifies, counts, of_width, refuses, schedule_ends, schedules, signs, writes};
use bb_cases::canonical::{
    BENCHMARK, CONSTANT, NINE_INPUTS, NO_GATE, ONE_INPUT_NINE_TIMES, PARITY_TREE, SWAP, TOGGLE,
    WIRE,
};
use bb_cases::half;
use bb_code::Need;
use bb_make::{MakeFault, Settings, Summary};

#[test]
fn a_half_adder_has_its_four_texts(rt: HostRuntime) {
    let alloc = rt.alloc();
    let settings = of_width(2);
    assert!(rt; writes(alloc, half::TEXT, &settings, half::NETLIST));
    assert!(rt; schedules(alloc, half::TEXT, &settings, half::SCHEDULE));
    assert!(rt; signs(alloc, half::TEXT, &settings, half::SIGNATURES));
    assert!(rt; certifies(alloc, half::TEXT, &settings, half::CERTIFICATE));
}

#[test]
fn the_original_and_the_plan_are_counted(rt: HostRuntime) {
    let alloc = rt.alloc();
    let adder = Summary {
        gates: 2,
        flops: 0,
        cells: 4,
        registers: 2,
        sessions: 1,
        degree: 2,
        cycles: 9,
    };
    assert!(rt; counts(alloc, half::TEXT, &of_width(2), adder));
    let none = Summary {
        gates: 0,
        flops: 0,
        cells: 1,
        registers: 1,
        sessions: 0,
        degree: 1,
        cycles: 1,
    };
    assert!(rt; counts(alloc, NO_GATE, &of_width(8), none));
    let benchmark = Summary {
        gates: 10,
        flops: 3,
        cells: 11,
        registers: 2,
        sessions: 1,
        degree: 6,
        cycles: 129,
    };
    assert!(rt; counts(alloc, BENCHMARK, &of_width(8), benchmark));
}

#[test]
fn without_a_session_no_signature_is_listed(rt: HostRuntime) {
    assert!(rt;
        signs(
            rt.alloc(),
            NO_GATE,
            &of_width(8),
            "bilbo-signatures 1\nend\n"
        )
    );
}

#[test]
fn the_line_of_a_wire_is_its_input(rt: HostRuntime) {
    let alloc = rt.alloc();
    assert!(rt;
        signs(
            alloc,
            WIRE,
            &of_width(8),
            "bilbo-signatures 1\nsession 0\nregister 1 00000001\nend\n"
        )
    );
    assert!(rt;
        signs(
            alloc,
            ONE_INPUT_NINE_TIMES,
            &of_width(8),
            "bilbo-signatures 1\nsession 0\nregister 1 00000001\nend\n"
        )
    );
}

#[test]
fn a_constant_has_a_segment_without_sources(rt: HostRuntime) {
    let alloc = rt.alloc();
    assert!(rt;
        signs(
            alloc,
            CONSTANT,
            &of_width(8),
            "bilbo-signatures 1\nsession 0\nregister 0 00000000\nend\n"
        )
    );
    assert!(rt;
        certifies(
            alloc,
            CONSTANT,
            &of_width(8),
            "bilbo-certificate 1\nperiod 2\nsegment 0\nend\n"
        )
    );
}

#[test]
fn a_flip_flop_that_reads_itself_has_two_cells(rt: HostRuntime) {
    assert!(rt;
        signs(
            rt.alloc(),
            TOGGLE,
            &of_width(8),
            "bilbo-signatures 1\nsession 0\nregister 1 00000001\nend\n"
        )
    );
}

#[test]
fn flip_flops_that_read_each_other_have_a_session_each(rt: HostRuntime) {
    assert!(rt;
        signs(
            rt.alloc(),
            SWAP,
            &of_width(8),
            "bilbo-signatures 1\nsession 0\nregister 0 00000001\nsession 1\nregister 1 00000001\nend\n"
        )
    );
}

#[test]
fn a_parity_tree_is_cut_and_has_two_sessions(rt: HostRuntime) {
    let alloc = rt.alloc();
    let parity = Summary {
        gates: 31,
        flops: 0,
        cells: 43,
        registers: 7,
        sessions: 2,
        degree: 6,
        cycles: 257,
    };
    assert!(rt; counts(alloc, PARITY_TREE, &of_width(4), parity));
    assert!(rt;
        schedule_ends(
            alloc,
            PARITY_TREE,
            &of_width(4),
            "session 4 6\nsession 5\ncycles 257\nend\n"
        )
    );
}

#[test]
fn a_higher_degree_gives_another_signature(rt: HostRuntime) {
    let settings = Settings {
        min_degree: 3,
        ..of_width(2)
    };
    assert!(rt; schedules(rt.alloc(), half::TEXT, &settings, half::AT_DEGREE_THREE[0]));
    assert!(rt; signs(rt.alloc(), half::TEXT, &settings, half::AT_DEGREE_THREE[1]));
}

#[test]
fn registers_of_one_cell_are_signed_one_by_one(rt: HostRuntime) {
    let settings = Settings {
        register: 1,
        ..of_width(2)
    };
    assert!(rt; schedules(rt.alloc(), half::TEXT, &settings, half::BY_ONE_CELL[0]));
    assert!(rt; signs(rt.alloc(), half::TEXT, &settings, half::BY_ONE_CELL[1]));
}

#[test]
fn a_plan_that_is_not_had_is_refused_for_its_cause(rt: HostRuntime) {
    let alloc = rt.alloc();
    assert!(rt;
        refuses(
            alloc,
            NINE_INPUTS,
            &of_width(8),
            MakeFault::GateTooWide {
                gate: 0,
                inputs: 9,
                width: 8
            }
        )
    );
    let degree = Settings {
        max_degree: 1,
        ..of_width(2)
    };
    assert!(rt;
        refuses(
            alloc,
            half::TEXT,
            &degree,
            MakeFault::DegreeLimit {
                max: 1,
                need: Need::Cells { cells: 4 }
            }
        )
    );
    let cycles = Settings {
        max_cycles: 8,
        ..of_width(2)
    };
    assert!(rt;
        refuses(
            alloc,
            half::TEXT,
            &cycles,
            MakeFault::CycleLimit {
                needed: 9,
                limit: 8
            }
        )
    );
}
