//! Texts in memory that are compiled.

use bb_cases::{CallEnd, holds, store_of, words_of};
use bb_edge::MemSink;
use bb_top::bilbo;
use std::alloc::{AllocError, Global};

/// How `compile i.v o` ends where `i.v` holds this text and `o.v` holds `old`, and whether it then holds the same.
fn compiled(alloc: Global, text: &[u8]) -> Result<(CallEnd, bool), AllocError> {
    let words = words_of(alloc, "compile i.v o")?;
    let mut store = store_of(alloc, &["o.v"], &["old"], Vec::new(alloc))?;
    store.set("i.v", text)?;
    let mut out = MemSink::new(alloc, None);
    let status = bilbo(alloc, &words, &mut store, &mut out);
    let line = Vec::from_slice(alloc, out.bytes())?;
    Ok((CallEnd { status, line }, holds(&store, &["o.v"], &["old"])))
}

/// Whether a text is refused with these words, and nothing is written.
pub(crate) fn is_refused(alloc: Global, text: &[u8], words: &str) -> Result<bool, AllocError> {
    let words = format!(in alloc; "input: {words}")?;
    let (end, same) = compiled(alloc, text)?;
    Ok(same && end.refuses(words.as_str()))
}
