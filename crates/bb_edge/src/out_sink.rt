ghost use Rattle.std.specs.Prelude.{◌≡◌, None};

use crate::schedule::one_more;
use crate::{Failed, Sink};
use std::io;
use std::io::Write;
use std::marker::Model;

/// Standard output. Nothing is told of what it took, and each put that failed is counted.
#[derive(Drop)]
pub struct OutSink<'a, P: Print> {
    to: &'a P,
    faults: u64,
}

impl<'a, P: Print> Model for OutSink<'a, P> {
    ghost use Rattle.std.specs.Prelude.{ℕ};

    ghost Value = { ℕ };

    ghost view = { λ s. s.faults };
}

impl<'a, P: Print> OutSink<'a, P> {
    /// Nothing was put yet.
    pub fn new(to: &'a P) -> Self
        ensures { result ≡ 0 }
    {
        OutSink { to, faults: 0 }
    }
}

impl<'a, P: Print> Sink for OutSink<'a, P> {
    ghost told = { λ _. None };

    ghost faults = { λ s. s };

    fn put(&mut self, bytes: &[u8]) -> Result<(), Failed> {
        match io::writer(self.to).write_all(bytes) {
            Ok(()) => Ok(()),
            Err(_) => {
                self.faults = one_more(self.faults);
                Err(Failed)
            }
        }
    }
}
