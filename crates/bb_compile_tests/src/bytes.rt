//! A store whose files come byte by byte.

ghost use Rattle.std.specs.Prelude.{◌≡◌, OnOk, None};
ghost use Rattle.bb_edge.specs.Files.{held, with_file};
ghost use Rattle.bb_edge.specs.Memory.{reading_of};

use bb_edge::{Failed, MemStore, Store};
use std::alloc::{AllocError, Global};

/// A store in memory that gives one byte at a time, and whose calls never fail but for want of memory.
#[derive(Drop)]
pub(crate) struct ByteStore {
    store: MemStore,
}

impl ByteStore {
    /// An empty store.
    pub(crate) fn new(alloc: Global) -> Self
        ensures free { result.store.writing ≡ None }
    {
        ByteStore {
            store: MemStore::new(alloc, Vec::new(alloc)),
        }
    }

    /// Gives a name these bytes.
    pub(crate) fn set(&mut self, name: &str, bytes: &[u8]) -> Result<(), AllocError>
        ensures free { self.new.store.writing ≡ self.old.store.writing }
    {
        self.store.set(name, bytes)
    }

    /// The store that it gives the bytes of.
    pub(crate) fn inner(&self) -> &MemStore {
        &self.store
    }
}

impl Store for ByteStore {
    ghost holds = { λ s. held s.store.files };

    ghost reading = { λ s. reading_of s.store };

    ghost writing = { λ s. s.store.writing };

    ghost read_faults = { λ s. s.store.read_faults };

    ghost write_faults = { λ s. s.store.write_faults };

    ghost may_read = { λ _. Unit {0} };

    ghost may_write = { λ _. Unit {0} };

    fn begin(&mut self, name: &str) -> Result<(), Failed> {
        self.store.begin(name)
    }

    fn piece(&mut self, buf: &mut [u8]) -> Result<usize, Failed> {
        self.store.piece(&mut buf[..1])
    }

    fn put_begin(&mut self, name: &str) -> Result<(), Failed> {
        self.store.put_begin(name)
    }

    fn put_piece(&mut self, bytes: &[u8]) -> Result<(), Failed> {
        self.store.put_piece(bytes)
    }

    fn put_end(&mut self) -> Result<(), Failed> {
        self.store.put_end()
    }
}
