ghost use Rattle.std.specs.Prelude.{◌≡◌, ◌++◌, ◌≢◌, ◌⊎◌, [], OnErr, OnOk, IsErr, Some};
ghost use Rattle.bb_edge.specs.Causes.{HasCause, one_more};
ghost use Rattle.bb_edge.specs.Told.{AppendsAll, AppendsFront};

use crate::schedule::one_more;
use crate::{Failed, Sink};
use std::alloc::Global;
use std::marker::Model;

/// A sink in memory, whose put of a stated number fails.
#[derive(Debug, Drop)]
pub struct MemSink {
    bytes: Vec<u8>,
    fail_at: Option<u64>,
    puts: u64,
    faults: u64,
}

impl Model for MemSink {
    ghost use Rattle.bb_edge.specs.Memory.{Puts};

    ghost Value = { Puts };

    ghost view = { λ s. record { bytes = s.bytes.items; fail_at = s.fail_at; puts = s.puts; faults = s.faults } };
}

impl MemSink {
    /// An empty sink. The puts are numbered from 0.
    pub fn new(alloc: Global, fail_at: Option<u64>) -> Self
        ensures { result ≡ record { bytes = []; fail_at = fail_at; puts = 0; faults = 0 } }
    {
        MemSink {
            bytes: Vec::new(alloc),
            fail_at,
            puts: 0,
            faults: 0,
        }
    }

    /// What was put so far.
    pub fn bytes(&self) -> &[u8]
        ensures { result.now ≡ self.now.bytes }
    {
        &self.bytes
    }
}

impl Sink for MemSink {
    ghost told = { λ s. Some s.bytes };

    ghost faults = { λ s. s.faults };

    /// Fails at the put of the stated number, and else only where bytes find no memory. A put that fails changes no bytes.
    fn put(&mut self, bytes: &[u8]) -> Result<(), Failed>
        ensures all { OnOk result (AppendsAll (Some self.old.bytes) (Some self.new.bytes) bytes.now) }
        ensures front { OnErr result (AppendsFront (Some self.old.bytes) (Some self.new.bytes) bytes.now) }
        ensures cause { HasCause self.old.faults self.new.faults result }

        ensures due { self.old.fail_at ≡ Some self.old.puts → IsErr result }
        ensures grows { OnErr result ((self.old.fail_at ≡ Some self.old.puts) ⊎ (bytes.now ≢ [])) }
        ensures ok { OnOk result (self.new ≡ record self.old { bytes = self.old.bytes ++ bytes.now; puts = one_more self.old.puts }) }
        ensures err { OnErr result (self.new ≡ record self.old { puts = one_more self.old.puts; faults = one_more self.old.faults }) }
    {
        let due = self.fail_at == Some(self.puts);
        self.puts = one_more(self.puts);
        if due || self.bytes.extend_from_slice(bytes).is_err() {
            self.faults = one_more(self.faults);
            return Err(Failed);
        }
        Ok(())
    }
}
