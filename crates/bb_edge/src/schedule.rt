ghost use Rattle.std.specs.Prelude.{◌≡◌, ◌↔◌, IsTrue};
ghost use Rattle.bb_edge.specs.Causes.{one_more};

use std::alloc::Global;
use std::marker::Model;

/// A kind of call of a store.
#[derive(Clone, Copy, Debug, PartialEq, Eq)]
pub enum Step {
    Begin,
    Piece,
    PutBegin,
    PutPiece,
    PutEnd,
}

/// The call of a step that is to fail, by its number among the calls of that step, from 0.
#[derive(Clone, Copy, Debug, PartialEq, Eq)]
pub struct Fail {
    pub step: Step,
    pub nth: u64,
}

/// Which calls are to fail, and how many there were of each step.
#[derive(Debug, Drop)]
pub(crate) struct Schedule {
    fails: Vec<Fail>,
    begins: u64,
    pieces: u64,
    put_begins: u64,
    put_pieces: u64,
    put_ends: u64,
}

impl Model for Schedule {
    ghost use Rattle.bb_edge.specs.Calls.{Calls};

    ghost Value = { Calls };

    ghost view = { λ s. record {
      fails = s.fails.items;
      begins = s.begins;
      pieces = s.pieces;
      put_begins = s.put_begins;
      put_pieces = s.put_pieces;
      put_ends = s.put_ends;
    } };
}

/// A count after one more, which stays at its last value.
pub(crate) fn one_more(count: u64) -> u64
    ensures { result ≡ one_more count }
{
    count.saturating_add(1)
}

impl Schedule {
    ghost use Rattle.bb_edge.specs.Calls.{IsDue, count_of, with_call};

    /// No call was made yet.
    pub(crate) fn new(fails: Vec<Fail>) -> Self
        ensures { result ≡ record { fails = fails.items; begins = 0; pieces = 0; put_begins = 0; put_pieces = 0; put_ends = 0 } }
    {
        Schedule {
            fails,
            begins: 0,
            pieces: 0,
            put_begins: 0,
            put_pieces: 0,
            put_ends: 0,
        }
    }

    /// Counts a call of a step, and answers whether it is to fail.
    pub(crate) fn count(&mut self, step: Step) -> bool
        ensures due { IsTrue result ↔ IsDue step self.old }
        ensures counted { self.new ≡ with_call step self.old }
    {
        let nth = self.count_of(step);
        let count = one_more(nth);
        match step {
            Step::Begin => self.begins = count,
            Step::Piece => self.pieces = count,
            Step::PutBegin => self.put_begins = count,
            Step::PutPiece => self.put_pieces = count,
            Step::PutEnd => self.put_ends = count,
        }
        self.fails.contains(&Fail { step, nth })
    }

    /// How many calls of a step there were.
    fn count_of(&self, step: Step) -> u64
        ensures { result ≡ count_of step self.now }
    {
        match step {
            Step::Begin => self.begins,
            Step::Piece => self.pieces,
            Step::PutBegin => self.put_begins,
            Step::PutPiece => self.put_pieces,
            Step::PutEnd => self.put_ends,
        }
    }
}
