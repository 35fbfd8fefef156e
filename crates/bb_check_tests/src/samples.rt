//! Samples: what is written for a number, and that it passes.

use crate::call::ended;
use bb_cases::{CallEnd, text_in};
use bb_edge::MemStore;
use std::alloc::{AllocError, Global};
use std::test::Fail;

/// The netlist of number 1.
const FIRST: &str = "module sample (i, o);\ninput [0:15] i;\noutput [0:0] o;\nwire [0:0] g;\n\
    or (g[0], i[0], i[4]);\nbuf (o[0], g[0]);\nendmodule\n";

/// How `sample` and then `check` end for these words behind the first, and the store with what was written.
fn sampled(alloc: Global, words: &str) -> Result<(CallEnd, CallEnd, MemStore), AllocError> {
    let words = format!(in alloc; "sample {words}")?;
    let mut store = MemStore::new(alloc, Vec::new(alloc));
    let made = ended(alloc, words.as_str(), &mut store)?;
    let checked = ended(alloc, "check p.in.v p", &mut store)?;
    Ok((made, checked, store))
}

/// How `sample` ends for these words behind the first, in an empty store.
fn drawn(alloc: Global, words: &str) -> Result<CallEnd, AllocError> {
    let words = format!(in alloc; "sample {words}")?;
    let mut store = MemStore::new(alloc, Vec::new(alloc));
    ended(alloc, words.as_str(), &mut store)
}

#[test]
fn the_first_sample_has_one_gate(rt: HostRuntime) -> Result<(), Fail> {
    let (made, checked, store) = sampled(rt.alloc(), "1 p")?;
    assert!(rt;
        made.says(
            0,
            "done gates 2 flops 0 cells 17 registers 3 sessions 1 degree 5 cycles 65"
        )
    );
    assert!(rt; checked.says(0, "pass"));
    assert!(rt; text_in(&store, "p.in.v") == FIRST);
    assert!(rt;
        text_in(&store, "p.sig") == "bilbo-signatures 1\nsession 0\nregister 2 00000000\nend\n"
    );
    assert!(rt;
        text_in(&store, "p.cert")
            == "bilbo-certificate 1\nperiod 32\nsegment 16 0 00000001 4 00000002\nend\n"
    );
    Ok(())
}

/// With options before and behind its words.
#[test]
fn a_sample_with_flip_flops_has_its_signatures_and_its_certificate(
    rt: HostRuntime,
) -> Result<(), Fail> {
    let (made, checked, store) = sampled(rt.alloc(), "--width 6 40 p --min-degree=3")?;
    assert!(rt;
        made.says(
            0,
            "done gates 48 flops 2 cells 27 registers 5 sessions 3 degree 6 cycles 385"
        )
    );
    assert!(rt; checked.says(0, "pass"));
    assert!(rt;
        text_in(&store, "p.sig")
            == "bilbo-signatures 1\nsession 0\nregister 2 00000018\nsession 1\n\
            register 3 00000001\nsession 2\nregister 4 00000000\nend\n"
    );
    assert!(rt;
        text_in(&store, "p.cert")
            == "bilbo-certificate 1\nperiod 64\nsegment 16 3 00000001 8 00000004\n\
            segment 17 7 00000001 8 00000004 14 00000010\nsegment 18 5 00000002 7 00000001 8 0000000c 22 00000008\n\
            segment 19 0 00000001 4 00000002 15 00000004\nsegment 20 22 00000004\nsegment 21 2 00000001 5 00000002\n\
            segment 22 3 00000001 6 00000002 8 00000004 10 00000008 17 00000010\n\
            segment 23 6 00000002 7 00000001 8 00000004 12 00000008 14 00000010 16 00000020\n\
            segment 24 3 00000001 8 00000004 16 00000020\n\
            segment 25 13 00000001 17 00000010\n\
            segment 26 1 00000001 6 00000002 12 0000000c 16 00000020 22 00000004\nend\n"
    );
    Ok(())
}

#[test]
fn a_sample_of_two_thousand_gates_passes(rt: HostRuntime) -> Result<(), Fail> {
    let words = "2000 p --min-degree 12 --max-degree 20 --max-cycles 1099511627776";
    let (first, checked, _) = sampled(rt.alloc(), words)?;
    assert_eq!(rt; first.status, 0);
    assert!(rt; checked.says(0, "pass"));
    let (second, _, _) = sampled(rt.alloc(), words)?;
    assert!(rt; second.status == 0 && second.line.as_slice() == first.line.as_slice());
    Ok(())
}

/// Each of its sessions runs 2^18 cycles, so this also shows that they are not simulated one at a time.
#[test]
fn a_sample_of_twenty_thousand_gates_runs_long_sessions(rt: HostRuntime) -> Result<(), Fail> {
    let words = "20000 p --width 6 --min-degree 18 --max-degree 20 --max-cycles 1099511627776";
    let first = drawn(rt.alloc(), words)?;
    assert_eq!(rt; first.status, 0);
    let second = drawn(rt.alloc(), words)?;
    assert!(rt; second.status == 0 && second.line.as_slice() == first.line.as_slice());
    Ok(())
}

#[test]
fn a_sample_without_room_for_a_plan_is_refused(rt: HostRuntime) -> Result<(), Fail> {
    let mut store = MemStore::new(rt.alloc(), Vec::new(rt.alloc()));
    store.set("p.in.v", b"old")?;
    let end = ended(rt.alloc(), "sample 3 p --max-degree 3", &mut store)?;
    assert!(rt; end.refuses("plan: degree limit 3 for 19 cells"));
    assert!(rt; text_in(&store, "p.in.v") == "old" && store.get("p.v") == None);
    Ok(())
}
