//! Calls over files in memory.

ghost use Rattle.std.specs.Prelude.{◌≡◌, None};

use bb_cases::{CallEnd, READ, store_of, words_of};
use bb_edge::{MemSink, MemStore};
use bb_top::bilbo;
use std::alloc::{AllocError, Global};

/// How a call of these words ends over a store.
fn ended(alloc: Global, words: &str, store: &mut MemStore) -> Result<CallEnd, AllocError>
    requires free { store.old.writing ≡ None }
    ensures free { store.new.writing ≡ None }
{
    let words = words_of(alloc, words)?;
    let mut out = MemSink::new(alloc, None);
    let status = bilbo(alloc, &words, store, &mut out);
    let line = Vec::from_slice(alloc, out.bytes())?;
    Ok(CallEnd { status, line })
}

/// How `compile i.v o` ends with these options where `i.v` holds this text and each file `old`, and the store then.
pub(crate) fn compiled(
    alloc: Global,
    text: &str,
    options: &str,
) -> Result<(CallEnd, MemStore), AllocError> {
    let words = format!(in alloc; "compile i.v o{options}")?;
    let texts = [text, "old", "old", "old", "old"];
    let mut store = store_of(alloc, &READ, &texts, Vec::new(alloc))?;
    let end = ended(alloc, words.as_str(), &mut store)?;
    Ok((end, store))
}
