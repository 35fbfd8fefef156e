// Worked plans. A cell's net is given by the number of its variable.

use crate::netlists::{AGAIN, DRAWN, HALF, NONE, ONE, SMALL, SWAP, TOGGLE, TREE, WIRE};
use crate::rows::{is_chosen, settings, size_of};
use bb_choose::Settings;
use bb_terms::Kind;

#[test]
fn a_half_adder_has_two_registers_and_one_session(rt: HostRuntime) {
    let inputs = [(Kind::Input, 0, 1), (Kind::Input, 1, 2)];
    let outputs = [(Kind::Output, 2, 0), (Kind::Output, 3, 0)];
    let at_two = is_chosen(
        rt.alloc(),
        HALF,
        settings(2, 1, 16),
        (2, 3),
        &[(3, &inputs), (3, &outputs)],
        &[&[1]],
    );
    assert!(rt; at_two == Some(true));
    let at_three = is_chosen(
        rt.alloc(),
        HALF,
        settings(2, 3, 16),
        (3, 5),
        &[(3, &inputs), (3, &outputs)],
        &[&[1]],
    );
    assert!(rt; at_three == Some(true));
}

#[test]
fn cycles_go_by_sessions_and_the_degree(rt: HostRuntime) {
    assert!(rt; size_of(rt.alloc(), HALF, settings(2, 1, 16)) == Some([4, 2, 1, 2, 9]));
    assert!(rt; size_of(rt.alloc(), HALF, settings(2, 3, 16)) == Some([4, 2, 1, 3, 17]));
    assert!(rt; size_of(rt.alloc(), NONE, settings(8, 1, 16)) == Some([1, 1, 0, 1, 1]));
    assert!(rt; size_of(rt.alloc(), WIRE, settings(8, 1, 16)) == Some([2, 2, 1, 1, 5]));
    assert!(rt; size_of(rt.alloc(), ONE, settings(8, 1, 16)) == Some([1, 1, 1, 1, 5]));
    assert!(rt; size_of(rt.alloc(), AGAIN, settings(8, 1, 16)) == Some([2, 2, 1, 1, 5]));
    assert!(rt; size_of(rt.alloc(), TOGGLE, settings(8, 1, 16)) == Some([2, 2, 1, 1, 5]));
    assert!(rt; size_of(rt.alloc(), SWAP, settings(8, 1, 16)) == Some([2, 2, 2, 1, 9]));
    assert!(rt; size_of(rt.alloc(), TREE, settings(4, 1, 16)) == Some([43, 7, 2, 6, 257]));
    assert!(rt; size_of(rt.alloc(), SMALL, settings(8, 1, 16)) == Some([11, 2, 1, 6, 129]));
    assert!(rt; size_of(rt.alloc(), DRAWN, settings(8, 1, 16)) == Some([17, 3, 1, 5, 65]));
}

#[test]
fn registers_of_one_cell_compact_together(rt: HostRuntime) {
    let settings = Settings {
        width: 2,
        min_degree: 1,
        max_degree: 16,
        max_cycles: 9,
        register: 1,
    };
    let is = is_chosen(
        rt.alloc(),
        HALF,
        settings,
        (2, 3),
        &[
            (1, &[(Kind::Input, 0, 1)]),
            (1, &[(Kind::Input, 1, 2)]),
            (1, &[(Kind::Output, 2, 0)]),
            (1, &[(Kind::Output, 3, 0)]),
        ],
        &[&[2, 3]],
    );
    assert!(rt; is == Some(true));
}

#[test]
fn a_flip_flop_that_reads_itself_is_split_and_watched(rt: HostRuntime) {
    let is = is_chosen(
        rt.alloc(),
        TOGGLE,
        settings(8, 1, 16),
        (1, 1),
        &[(1, &[(Kind::Split, 1, 1)]), (1, &[(Kind::Watch, 1, 0)])],
        &[&[1]],
    );
    assert!(rt; is == Some(true));
}

#[test]
fn flip_flops_that_read_each_other_compact_one_by_one(rt: HostRuntime) {
    let is = is_chosen(
        rt.alloc(),
        SWAP,
        settings(8, 1, 16),
        (1, 1),
        &[(1, &[(Kind::State, 1, 1)]), (1, &[(Kind::State, 2, 1)])],
        &[&[0], &[1]],
    );
    assert!(rt; is == Some(true));
}

#[test]
fn a_small_benchmark_has_seven_sources_in_one_register(rt: HostRuntime) {
    let sources = [
        (Kind::Input, 1, 1),
        (Kind::Input, 2, 2),
        (Kind::Input, 3, 1),
        (Kind::Input, 4, 4),
        (Kind::Split, 6, 8),
        (Kind::Split, 7, 16),
        (Kind::Split, 8, 32),
    ];
    let observers = [
        (Kind::Watch, 6, 0),
        (Kind::Watch, 7, 0),
        (Kind::Watch, 8, 0),
        (Kind::Output, 5, 0),
    ];
    let is = is_chosen(
        rt.alloc(),
        SMALL,
        settings(8, 1, 16),
        (6, 33),
        &[(65, &sources), (9, &observers)],
        &[&[1]],
    );
    assert!(rt; is == Some(true));
}
