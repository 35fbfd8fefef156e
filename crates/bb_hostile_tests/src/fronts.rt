//! Files that end too early.

use crate::call::checked;
use bb_cases::{CallEnd, READ, half, store_of};
use std::alloc::{AllocError, Global};
use std::test::Fail;

/// How `check i.v o` ends where a name holds this text, and the others what is made of the half adder.
fn checked_beside(alloc: Global, name: &str, text: &[u8]) -> Result<CallEnd, AllocError> {
    let mut store = store_of(alloc, &READ, &half::TEXTS, Vec::new(alloc))?;
    store.set(name, text)?;
    checked(alloc, &mut store)
}

/// The number of the line in which a text ends.
fn last_line(text: &[u8]) -> usize {
    text.split(|byte| *byte == b'\n').count()
}

/// Each is refused by the line in which it ends.
#[test]
fn a_proper_front_of_a_form_is_refused(rt: HostRuntime) -> Result<(), Fail> {
    let rows = [
        ("o.sched", half::SCHEDULE, "schedule"),
        ("o.sig", half::SIGNATURES, "signatures"),
        ("o.cert", half::CERTIFICATE, "certificate"),
    ];
    for (name, text, form) in rows {
        let text = text.as_bytes();
        for length in 0..text.len() {
            let end = checked_beside(rt.alloc(), name, &text[..length])?;
            let line = last_line(&text[..length]);
            let wanted = format!(in rt.alloc(); "{form}: line {line}")?;
            assert!(rt; end.refuses(wanted.as_str()), "{name} {length}");
        }
    }
    Ok(())
}

/// But for its last line feed.
#[test]
fn a_proper_front_of_a_netlist_is_refused(rt: HostRuntime) -> Result<(), Fail> {
    let text = half::NETLIST.as_bytes();
    let end = b"endmodule\n";
    assert!(rt; text.ends_with(end));
    for length in 0..text.len() - 1 {
        let end = checked_beside(rt.alloc(), "o.v", &text[..length])?;
        assert!(rt;
            end.status == 1 && end.line.starts_with(b"refused netlist: line "),
            "{length}"
        );
    }
    Ok(())
}
