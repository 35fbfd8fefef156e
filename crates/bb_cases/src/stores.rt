// Stores in memory: what they hold, and words of a text replaced.

ghost use Rattle.std.specs.Prelude.{◌≡◌, None, IfOk};

use bb_edge::{Fail, MemStore};
use std::alloc::{AllocError, Global};

/// The names that `check i.v o` reads, in its order.
pub const READ: [&str; 5] = ["i.v", "o.v", "o.sched", "o.sig", "o.cert"];

/// The names that `compile i.v o` writes, in its order.
pub const WRITTEN: [&str; 4] = ["o.v", "o.sched", "o.sig", "o.cert"];

/// A store that holds these texts in these names, and whose calls in the list fail.
pub fn store_of(
    alloc: Global,
    names: &[&str],
    texts: &[&str],
    fails: Vec<Fail>,
) -> Result<MemStore, AllocError>
    ensures free { IfOk result (λ store. store.writing ≡ None) }
{
    let mut store = MemStore::new(alloc, fails);
    'files: for (name, text) in names.iter().zip(texts) {
        store.set(name, text.as_bytes())?;
    }
    Ok(store)
}

/// Whether these names hold these texts.
pub fn holds(store: &MemStore, names: &[&str], texts: &[&str]) -> bool {
    names.len() == texts.len()
        && names
            .iter()
            .zip(texts)
            .all(|(name, text)| store.get(name) == Some(text.as_bytes()))
}

/// Whether two stores hold the same in these names.
pub fn hold_the_same(one: &MemStore, other: &MemStore, names: &[&str]) -> bool {
    names.iter().all(|name| one.get(name) == other.get(name))
}

/// The text that a name holds, or no text.
pub fn text_in<'a>(store: &'a MemStore, name: &str) -> &'a str {
    match store.get(name) {
        Some(bytes) => str::from_utf8(bytes).unwrap_or(""),
        None => "",
    }
}

/// A text in which the first words like these are replaced, or no text where there are none.
fn replaced(alloc: Global, text: &str, old: &str, new: &str) -> Result<String, AllocError> {
    match text.split_once(old) {
        Some((front, back)) => format!(in alloc; "{front}{new}{back}"),
        None => Ok(String::new(alloc)),
    }
}

/// Replaces words of the text that a name holds.
pub fn replace(
    alloc: Global,
    store: &mut MemStore,
    name: &str,
    old: &str,
    new: &str,
) -> Result<(), AllocError>
    ensures free { store.new.writing ≡ store.old.writing }
{
    let text = replaced(alloc, text_in(store, name), old, new)?;
    store.set(name, text.as_bytes())
}
