//! Changes of the three files of numbers, each with the line that `check` puts.

use crate::call::{checked, checked_with};
use bb_cases::{READ, replace, store_of, swap};
use std::test::Fail;

#[test]
fn a_schedule_is_judged_by_its_form_and_its_rules(rt: HostRuntime) -> Result<(), Fail> {
    let rows = [
        ("bilbo-schedule 1", "bilbo-schedule 2", "schedule: line 1"),
        ("width 2", "width 4294967295", "check: rule 1 at 0"),
        ("width 2", "width 4294967296", "schedule: line 2"),
        ("width 2", "width 13", "check: rule 1 at 0"),
        ("width 2", "width 02", "schedule: line 2"),
        ("width 2", "width 1", "check: rule 11 at 2"),
        ("degree 2", "degree 0", "schedule: line 3"),
        ("degree 2", "degree 21", "schedule: line 3"),
        ("degree 2", "degree 99", "schedule: line 3"),
        ("degree 2", "degree 3", "schedule: line 12"),
        ("mask 00000003", "mask 0000003", "schedule: line 4"),
        ("mask 00000003", "mask 0000000F", "schedule: line 4"),
        ("mask 00000003", "mask 00000001", "check: rule 1 at 0"),
        ("mask 00000003", "mask 00000004", "check: rule 1 at 0"),
        ("mask 00000003", "mask 00000002", "check: rule 14 at 3"),
        (
            "register 00000003\ncell input",
            "register 00000004\ncell input",
            "check: rule 2 at 0",
        ),
        (
            "register 00000003\ncell output",
            "register 00000001\ncell output",
            "check: rule 2 at 1",
        ),
        ("cell input 0", "cell Input 0", "schedule: line 6"),
        (
            "cell input 0",
            "cell input 4294967295",
            "check: rule 3 at 0",
        ),
        ("cell input 0", "cell input 2", "check: rule 3 at 0"),
        ("cell output 2", "cell output 0", "check: rule 3 at 2"),
        ("cell input 1", "cell input 0", "check: rule 4 at 1"),
        ("cell output 3", "cell output 2", "check: rule 4 at 3"),
        (
            "register 00000003\ncell output 2 00000000\ncell output 3 00000000\n",
            "register 00000001\ncell output 2 00000000\n",
            "check: rule 5 at 3",
        ),
        (
            "cell input 1 00000002\nregister 00000003\ncell output 2 00000000\n",
            "cell output 2 00000000\nregister 00000003\ncell input 1 00000002\n",
            "check: rule 6 at 0",
        ),
        ("session 1", "session 4294967295", "check: rule 7 at 0"),
        ("session 1", "session 1 1", "check: rule 7 at 0"),
        ("session 1", "session 0", "check: rule 7 at 0"),
        ("session 1", "session", "check: rule 7 at 0"),
        ("session 1\ncycles 9", "cycles 1", "check: rule 8 at 1"),
        (
            "input 1 00000002",
            "input 1 00000004",
            "check: rule 10 at 1",
        ),
        (
            "output 2 00000000",
            "output 2 00000001",
            "check: rule 10 at 2",
        ),
        (
            "input 1 00000002",
            "input 1 00000001",
            "check: rule 13 at 2",
        ),
        (
            "input 1 00000002",
            "input 1 00000000",
            "check: rule 13 at 2",
        ),
        ("cycles 9", "cycles 10", "schedule: line 12"),
        ("end\n", "end\nend\n", "schedule: line 14"),
    ];
    for (old, new, words) in rows {
        let end = checked_with(rt.alloc(), "o.sched", old, new)?;
        assert!(rt; end.refuses(words), "{new:?}");
    }
    Ok(())
}

#[test]
fn signatures_and_a_certificate_are_judged_by_their_form_and_their_rules(
    rt: HostRuntime,
) -> Result<(), Fail> {
    let rows = [
        ("o.sig", "session 0", "session 1", "signatures: line 2"),
        (
            "o.sig",
            "register 1 00000002",
            "register 1 2",
            "signatures: line 3",
        ),
        (
            "o.sig",
            "register 1 00000002",
            "register 1 00000003",
            "check: rule 18 at 0",
        ),
        (
            "o.sig",
            "register 1 00000002",
            "register 0 00000002",
            "check: rule 18 at 0",
        ),
        (
            "o.sig",
            "session 0\nregister 1 00000002\n",
            "",
            "check: rule 18 at 0",
        ),
        ("o.sig", "end", "session 1\nend", "check: rule 18 at 1"),
        ("o.cert", "period 4", "period 8", "check: rule 15 at 2"),
        (
            "o.cert",
            "period 4",
            "period 4294967296",
            "certificate: line 2",
        ),
        ("o.cert", "end\n", "", "certificate: line 5"),
        (
            "o.cert",
            "segment 3 0 00000001 1 00000002\n",
            "",
            "check: rule 15 at 4",
        ),
        ("o.cert", "segment 2", "segment 3", "check: rule 15 at 3"),
        (
            "o.cert",
            "end",
            "segment 3 0 00000001 1 00000002\nend",
            "check: rule 15 at 5",
        ),
        (
            "o.cert",
            "2 0 00000001 1 00000002",
            "2 1 00000002 0 00000001",
            "check: rule 15 at 3",
        ),
        (
            "o.cert",
            "2 0 00000001 1 00000002",
            "2 0 00000001",
            "check: rule 15 at 3",
        ),
        (
            "o.cert",
            "2 0 00000001",
            "2 0 00000003",
            "check: rule 16 at 2",
        ),
        (
            "o.cert",
            "2 0 00000001",
            "2 0 00000005",
            "check: rule 16 at 2",
        ),
        (
            "o.cert",
            "3 0 00000001",
            "3 0 00000000",
            "check: rule 16 at 3",
        ),
        (
            "o.cert",
            "2 0 00000001 1 00000002",
            "2 0 00000001 1 00000001 2 00000001 3 00000001 4 00000001 5 00000001 6 00000001 7 00000001 8 00000001 9 00000001 10 00000001 11 00000001 12 00000001 13 00000001 14 00000001 15 00000001 16 00000001",
            "certificate: line 3",
        ),
    ];
    for (name, old, new, words) in rows {
        let end = checked_with(rt.alloc(), name, old, new)?;
        assert!(rt; end.refuses(words), "{name} {new:?}");
    }
    Ok(())
}

/// With more cells than states.
#[test]
fn a_degree_has_room_for_all_cells(rt: HostRuntime) -> Result<(), Fail> {
    let rest =
        "register 00000003\ncell input 0 00000001\ncell input 1 00000002\nregister 00000003\n\
        cell output 2 00000000\ncell output 3 00000000\nsession 1\n";
    let old = format!(in rt.alloc(); "degree 2\nmask 00000003\n{rest}cycles 9\n")?;
    let new = format!(in rt.alloc(); "degree 1\nmask 00000001\n{rest}cycles 5\n")?;
    let end = checked_with(rt.alloc(), "o.sched", old.as_str(), new.as_str())?;
    assert!(rt; end.refuses("check: rule 9 at 4"));
    Ok(())
}

/// Of two flip-flops that read each other.
#[test]
fn registers_that_read_each_other_compact_in_two_sessions(rt: HostRuntime) -> Result<(), Fail> {
    let mut store = store_of(rt.alloc(), &READ, &swap::TEXTS, Vec::new(rt.alloc()))?;
    let end = checked(rt.alloc(), &mut store)?;
    assert!(rt; end.says(0, "pass"));
    replace(
        rt.alloc(),
        &mut store,
        "o.sched",
        "session 0\nsession 1\ncycles 9\n",
        "session 0 1\ncycles 5\n",
    )?;
    let end = checked(rt.alloc(), &mut store)?;
    assert!(rt; end.refuses("check: rule 12 at 0"));
    Ok(())
}
