//! Calls over files in memory.

ghost use Rattle.std.specs.Prelude.{◌≡◌, None};

use bb_cases::{CallEnd, words_of};
use bb_edge::{MemSink, MemStore};
use bb_top::bilbo;
use std::alloc::{AllocError, Global};

/// How a call of these words ends over a store, where the put of the stated number fails.
pub(crate) fn ended(
    alloc: Global,
    words: &str,
    store: &mut MemStore,
    fail_at: Option<u64>,
) -> Result<CallEnd, AllocError>
    requires free { store.old.writing ≡ None }
    ensures free { store.new.writing ≡ None }
{
    let words = words_of(alloc, words)?;
    let mut out = MemSink::new(alloc, fail_at);
    let status = bilbo(alloc, &words, store, &mut out);
    let line = Vec::from_slice(alloc, out.bytes())?;
    Ok(CallEnd { status, line })
}
