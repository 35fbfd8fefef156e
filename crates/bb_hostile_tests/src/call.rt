//! Checks of files in memory.

ghost use Rattle.std.specs.Prelude.{◌≡◌, None};

use bb_cases::{CallEnd, READ, half, replace, store_of, words_of};
use bb_edge::{MemSink, MemStore};
use bb_top::bilbo;
use std::alloc::{AllocError, Global};

/// How `check i.v o` ends.
pub(crate) fn checked(alloc: Global, store: &mut MemStore) -> Result<CallEnd, AllocError>
    requires free { store.old.writing ≡ None }
    ensures free { store.new.writing ≡ None }
{
    let words = words_of(alloc, "check i.v o")?;
    let mut out = MemSink::new(alloc, None);
    let status = bilbo(alloc, &words, store, &mut out);
    let line = Vec::from_slice(alloc, out.bytes())?;
    Ok(CallEnd { status, line })
}

/// How it ends on the half adder's files where words of one are replaced.
pub(crate) fn checked_with(
    alloc: Global,
    name: &str,
    old: &str,
    new: &str,
) -> Result<CallEnd, AllocError> {
    let mut store = store_of(alloc, &READ, &half::TEXTS, Vec::new(alloc))?;
    replace(alloc, &mut store, name, old, new)?;
    checked(alloc, &mut store)
}
