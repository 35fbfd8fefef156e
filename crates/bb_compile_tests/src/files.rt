//! What `compile` writes, to the last byte.

use crate::bytes::ByteStore;
use crate::call::compiled;
use bb_cases::{
    CallEnd, WRITTEN, benchmark, constant, half, hold_the_same, holds, no_gate, parity_tree, swap,
    toggle, wire, words_of,
};
use bb_edge::MemSink;
use bb_top::bilbo;
use std::alloc::{AllocError, Global};
use std::test::Fail;

#[test]
fn a_netlist_is_compiled_into_four_files(rt: HostRuntime) -> Result<(), Fail> {
    let rows = [
        (half::TEXT, " --width 2", half::FILES),
        (no_gate::TEXT, "", no_gate::FILES),
        (wire::TEXT, "", wire::FILES),
        (constant::TEXT, "", constant::FILES),
        (toggle::TEXT, "", toggle::FILES),
        (swap::TEXT, "", swap::FILES),
    ];
    for (text, options, files) in rows {
        let (end, store) = compiled(rt.alloc(), text, options)?;
        assert_eq!(rt; end.status, 0, "{text}");
        for place in 0..4 {
            let name = WRITTEN[place];
            assert!(rt; holds(&store, &[name], &[files[place]]), "{text} {name}");
        }
    }
    Ok(())
}

/// Its schedule, its signatures and its certificate, where the netlist is long.
#[test]
fn a_netlist_has_its_files_of_numbers(rt: HostRuntime) -> Result<(), Fail> {
    let rows = [
        (
            half::TEXT,
            " --width=2 --min-degree 3",
            half::AT_DEGREE_THREE,
        ),
        (half::TEXT, " --width 2 --register=1", half::BY_ONE_CELL),
        (benchmark::PLAIN, "", benchmark::NUMBERS),
        (benchmark::MADE, "", benchmark::NUMBERS),
        (parity_tree::TEXT, " --width 4", parity_tree::NUMBERS),
    ];
    for (text, options, files) in rows {
        let (end, store) = compiled(rt.alloc(), text, options)?;
        assert_eq!(rt; end.status, 0, "{text}");
        for place in 0..3 {
            let name = WRITTEN[place + 1];
            assert!(rt; holds(&store, &[name], &[files[place]]), "{text} {name}");
        }
    }
    Ok(())
}

/// How it ends where the text comes in pieces of one byte, and the store then.
fn compiled_in_bytes(alloc: Global, text: &str) -> Result<(CallEnd, ByteStore), AllocError> {
    let words = words_of(alloc, "compile i.v o")?;
    let mut store = ByteStore::new(alloc);
    store.set("i.v", text.as_bytes())?;
    let mut out = MemSink::new(alloc, None);
    let status = bilbo(alloc, &words, &mut store, &mut out);
    let line = Vec::from_slice(alloc, out.bytes())?;
    Ok((CallEnd { status, line }, store))
}

/// So that a comment and an escaped name are cut.
#[test]
fn a_text_in_pieces_of_one_byte_has_the_same_files(rt: HostRuntime) -> Result<(), Fail> {
    let (whole, store) = compiled(rt.alloc(), benchmark::MADE, "")?;
    let (cut, bytes) = compiled_in_bytes(rt.alloc(), benchmark::MADE)?;
    assert_eq!(rt; cut.status, 0);
    assert!(rt; cut.line.as_slice() == whole.line.as_slice());
    assert!(rt; hold_the_same(&store, bytes.inner(), &WRITTEN));
    Ok(())
}
