//! Files that pass, whoever made them.

use crate::call::{checked, compiled};
use bb_cases::{READ, half, holds, replace, text_in};
use std::alloc::{AllocError, Global};
use std::test::Fail;

/// With its five files as they were before.
#[test]
fn files_that_were_written_pass(rt: HostRuntime) -> Result<(), Fail> {
    let mut store = compiled(rt.alloc(), half::TEXT, "--width 2")?;
    assert!(rt; holds(&store, &READ, &half::TEXTS));
    let end = checked(rt.alloc(), &mut store)?;
    assert!(rt; end.says(0, "pass") && holds(&store, &READ, &half::TEXTS));
    Ok(())
}

/// Whether a line is the head of a module or declares names.
fn is_declaration(line: &str) -> bool {
    ["module ", "input ", "output ", "wire "]
        .iter()
        .any(|front| line.starts_with(*front))
}

/// The text of a module with its statements in the other order, a line each.
fn turned(alloc: Global, text: &str) -> Result<String, AllocError> {
    let mut front = String::new(alloc);
    let mut statements = Vec::new(alloc);
    for line in text.split('\n') {
        if is_declaration(line) {
            front.push_str(line)?;
            front.push_str("\n")?;
        } else if line.ends_with(";") {
            statements.push(line)?;
        }
    }
    for line in statements.iter().rev() {
        front.push_str(line)?;
        front.push_str("\n")?;
    }
    front.push_str("endmodule\n")?;
    Ok(front)
}

#[test]
fn other_duals_and_another_order_of_statements_pass(rt: HostRuntime) -> Result<(), Fail> {
    let mut store = compiled(rt.alloc(), half::TEXT, "--width 2 --min-degree 3")?;
    replace(
        rt.alloc(),
        &mut store,
        "o.cert",
        "2 0 00000001 1 00000002\nsegment 3 0 00000001",
        "2 0 00000005 1 00000002\nsegment 3 0 00000005",
    )?;
    let text = turned(rt.alloc(), text_in(&store, "o.v"))?;
    assert!(rt; text.as_str().len() == text_in(&store, "o.v").len());
    assert!(rt; text.as_str() != text_in(&store, "o.v"));
    store.set("o.v", text.as_bytes())?;
    let end = checked(rt.alloc(), &mut store)?;
    assert!(rt; end.says(0, "pass"));
    Ok(())
}
