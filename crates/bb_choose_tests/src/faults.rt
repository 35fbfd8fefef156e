// Why nothing is chosen, for each refusal but want of memory.

use crate::netlists::{HALF, NINE, SMALL, read};
use crate::rows::{choice, fault_of, settings, size_of};
use bb_base::BitName;
use bb_choose::{ChoiceFault, Settings};
use bb_code::Need;

#[test]
fn a_gate_of_nine_inputs_is_too_wide_at_eight(rt: HostRuntime) {
    let fault = ChoiceFault::GateTooWide {
        gate: 0,
        inputs: 9,
        width: 8,
    };
    assert!(rt; fault_of(rt.alloc(), NINE, settings(8, 1, 16)) == Some(fault));
}

#[test]
fn no_degree_has_states_for_the_cells(rt: HostRuntime) {
    let fault = ChoiceFault::DegreeLimit {
        max: 1,
        need: Need::Cells { cells: 4 },
    };
    assert!(rt; fault_of(rt.alloc(), HALF, settings(2, 1, 1)) == Some(fault));
}

#[test]
fn no_degree_has_a_column_for_the_last_source(rt: HostRuntime) {
    let Some((named, order)) = read(rt.alloc(), SMALL) else {
        panic!(rt; "no netlist");
    };
    let last = named.find(BitName {
        variable: 8,
        place: 0,
    });
    match (choice(rt.alloc(), &named, &order, settings(8, 1, 5)), last) {
        (Some(Err(fault)), Some(net)) => assert!(rt;
            fault
                == ChoiceFault::DegreeLimit {
                    max: 5,
                    need: Need::Source { source: net.0 },
                }
        ),
        _ => panic!(rt; "no fault"),
    }
    assert!(rt; size_of(rt.alloc(), SMALL, settings(8, 1, 6)) == Some([11, 2, 1, 6, 129]));
}

#[test]
fn a_test_of_nine_cycles_is_too_long_for_eight(rt: HostRuntime) {
    let at_most = Settings {
        width: 2,
        min_degree: 1,
        max_degree: 16,
        max_cycles: 8,
        register: 8,
    };
    let fault = ChoiceFault::CycleLimit {
        needed: 9,
        limit: 8,
    };
    assert!(rt; fault_of(rt.alloc(), HALF, at_most) == Some(fault));
    let enough = Settings {
        max_cycles: 9,
        ..at_most
    };
    assert!(rt; size_of(rt.alloc(), HALF, enough) == Some([4, 2, 1, 2, 9]));
}
