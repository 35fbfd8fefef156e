//! Each call of the outside fails once: what a command then answers, and what the files hold.

use crate::call::ended;
use bb_cases::half::{self, NETLIST, SCHEDULE, SIGNATURES};
use bb_cases::{CallEnd, READ, WRITTEN, holds, store_of};
use bb_edge::{Fail, MemStore, Step};
use std::alloc::{AllocError, Global};
use std::test::Fail as TestFail;

/// Calls that fail: this one.
fn one_fail(alloc: Global, step: Step, nth: u64) -> Result<Vec<Fail>, AllocError> {
    vec![in alloc; Fail { step, nth }; 1]
}

/// How `compile i.v o --width 2` ends on the half adder where these calls fail and each file holds `old`, and whether then
/// the files hold these texts.
fn compiled_failing(
    alloc: Global,
    fails: Vec<Fail>,
    fail_at: Option<u64>,
    texts: [&str; 4],
) -> Result<(CallEnd, bool), AllocError> {
    let old = [half::TEXT, "old", "old", "old", "old"];
    let mut store = store_of(alloc, &READ, &old, fails)?;
    let end = ended(alloc, "compile i.v o --width 2", &mut store, fail_at)?;
    Ok((end, holds(&store, &WRITTEN, &texts)))
}

#[test]
fn files_that_are_compiled_up_to_one_that_fails_are_whole(rt: HostRuntime) -> Result<(), TestFail> {
    let rows = [
        (Step::Begin, 0, 3, ["old", "old", "old", "old"]),
        (Step::Piece, 0, 3, ["old", "old", "old", "old"]),
        (Step::PutBegin, 0, 4, ["old", "old", "old", "old"]),
        (Step::PutBegin, 1, 4, [NETLIST, "old", "old", "old"]),
        (Step::PutBegin, 2, 4, [NETLIST, SCHEDULE, "old", "old"]),
        (Step::PutBegin, 3, 4, [NETLIST, SCHEDULE, SIGNATURES, "old"]),
        (Step::PutPiece, 0, 4, ["", "old", "old", "old"]),
        (Step::PutPiece, 1, 4, [NETLIST, "", "old", "old"]),
        (Step::PutPiece, 2, 4, [NETLIST, SCHEDULE, "", "old"]),
        (Step::PutPiece, 3, 4, [NETLIST, SCHEDULE, SIGNATURES, ""]),
        (Step::PutEnd, 0, 4, [NETLIST, "old", "old", "old"]),
        (Step::PutEnd, 1, 4, [NETLIST, SCHEDULE, "old", "old"]),
        (Step::PutEnd, 2, 4, [NETLIST, SCHEDULE, SIGNATURES, "old"]),
        (Step::PutEnd, 3, 4, half::FILES),
    ];
    for (step, nth, status, texts) in rows {
        let fails = one_fail(rt.alloc(), step, nth)?;
        let (end, held) = compiled_failing(rt.alloc(), fails, None, texts)?;
        assert!(rt; end.is_silent(status) && held, "{step:?} {nth}");
    }
    let none = Vec::new(rt.alloc());
    let (end, held) = compiled_failing(rt.alloc(), none, Some(0), half::FILES)?;
    assert!(rt; end.is_silent(4) && held);
    Ok(())
}

#[test]
fn a_fault_of_reading_comes_before_one_of_the_text(rt: HostRuntime) -> Result<(), TestFail> {
    let mut text = vec![in rt.alloc(); b' '; 100_000]?;
    text[0] = b'#';
    let fails = one_fail(rt.alloc(), Step::Piece, 1)?;
    let mut store = store_of(rt.alloc(), &["o.v"], &["old"], fails)?;
    store.set("i.v", &text)?;
    let end = ended(rt.alloc(), "compile i.v o", &mut store, None)?;
    assert!(rt; end.is_silent(3) && holds(&store, &["o.v"], &["old"]));
    Ok(())
}

/// How `check i.v o` ends on the half adder's files where these calls fail, and whether the files are as before.
fn checked_failing(
    alloc: Global,
    fails: Vec<Fail>,
    fail_at: Option<u64>,
) -> Result<(CallEnd, bool), AllocError> {
    let mut store = store_of(alloc, &READ, &half::TEXTS, fails)?;
    let end = ended(alloc, "check i.v o", &mut store, fail_at)?;
    Ok((end, holds(&store, &READ, &half::TEXTS)))
}

/// The same where one call fails.
fn checked_with_fail(alloc: Global, step: Step, nth: u64) -> Result<(CallEnd, bool), AllocError> {
    checked_failing(alloc, one_fail(alloc, step, nth)?, None)
}

#[test]
fn a_check_whose_reading_fails_says_nothing(rt: HostRuntime) -> Result<(), TestFail> {
    for nth in 0..5 {
        let (end, same) = checked_with_fail(rt.alloc(), Step::Begin, nth)?;
        assert!(rt; end.is_silent(3) && same, "{nth}");
    }
    // Each file is read by two calls, of which the second answers 0.
    for nth in 0..10 {
        let (end, same) = checked_with_fail(rt.alloc(), Step::Piece, nth)?;
        assert!(rt; end.is_silent(3) && same, "{nth}");
    }
    let (end, same) = checked_with_fail(rt.alloc(), Step::Piece, 10)?;
    assert!(rt; end.says(0, "pass") && same);
    Ok(())
}

#[test]
fn a_check_writes_no_file(rt: HostRuntime) -> Result<(), TestFail> {
    for step in [Step::PutBegin, Step::PutPiece, Step::PutEnd] {
        let (end, same) = checked_with_fail(rt.alloc(), step, 0)?;
        assert!(rt; end.says(0, "pass") && same, "{step:?}");
    }
    let (end, same) = checked_failing(rt.alloc(), Vec::new(rt.alloc()), Some(0))?;
    assert!(rt; end.is_silent(4) && same);
    Ok(())
}

/// The files of `sample 1 p`, in the order in which they are written.
const NAMES: [&str; 5] = ["p.in.v", "p.v", "p.sched", "p.sig", "p.cert"];

/// How `sample 1 p` ends where these calls fail, and the store.
fn sampled_failing(
    alloc: Global,
    fails: Vec<Fail>,
    fail_at: Option<u64>,
) -> Result<(CallEnd, MemStore), AllocError> {
    let mut store = store_of(alloc, &NAMES, &["x"; 5], fails)?;
    let end = ended(alloc, "sample 1 p", &mut store, fail_at)?;
    Ok((end, store))
}

/// Whether so many files are whole, the next one holds these bytes, and those behind it hold `x`.
fn are_whole(whole: &MemStore, store: &MemStore, count: usize, next: &[u8]) -> bool {
    for (place, name) in NAMES.iter().enumerate() {
        let wanted = if place < count {
            whole.get(name)
        } else if place == count {
            Some(next)
        } else {
            Some(b"x".as_slice())
        };
        if store.get(name) != wanted {
            return false;
        }
    }
    true
}

#[test]
fn files_of_a_sample_up_to_one_that_fails_are_whole(rt: HostRuntime) -> Result<(), TestFail> {
    let (end, whole) = sampled_failing(rt.alloc(), Vec::new(rt.alloc()), None)?;
    assert_eq!(rt; end.status, 0);
    for place in 0..5 {
        let rows = [
            (Step::PutBegin, place, "x"),
            (Step::PutPiece, place, ""),
            (Step::PutEnd, place + 1, "x"),
        ];
        for (step, count, next) in rows {
            let fails = one_fail(rt.alloc(), step, place as u64)?;
            let (end, store) = sampled_failing(rt.alloc(), fails, None)?;
            assert!(rt;
                end.is_silent(4) && are_whole(&whole, &store, count, next.as_bytes()),
                "{step:?} {place}"
            );
        }
    }
    let (end, store) = sampled_failing(rt.alloc(), Vec::new(rt.alloc()), Some(0))?;
    assert!(rt; end.is_silent(4) && are_whole(&whole, &store, 5, b"x"));
    Ok(())
}
