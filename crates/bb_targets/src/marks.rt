// A bit is marked when it is first driven. When it is driven again, bits from it on need no marks: the first bit that is driven twice
// is that one or lies before it. So each bit is marked at most once, and each span is walked no further than to a mark.

ghost use Rattle.std.specs.Prelude.{◌≡◌, ◌≤◌, ◌-◌, length, fold, nat_lt, IfOk, Some, None, if◌then◌else◌};
ghost use Rattle.std.specs.List.{range_with_len};
ghost use Rattle.bb_targets.specs.Marks.{unmarked, with_mark};

use std::alloc::{AllocError, Global};
use std::marker::Model;

/// A mark for each bit, and the first bit that is driven twice, or the number of bits where none is.
#[derive(Drop)]
pub(crate) struct Marks {
    marks: Vec<bool>,
    least: u32,
}

impl Model for Marks {
    ghost use Rattle.std.specs.Prelude.{◌≤◌, length};
    ghost use Rattle.bb_targets.specs.Marks.{Marked};

    ghost Value = { Marked };

    ghost view = { λ m. record { marks = m.marks.items; least = m.least } };

    ghost invariant = { λ m. m.least ≤ length m.marks.items };
}

/// Marks the bits from a first one on, up to an end, and answers the first bit that is then driven twice, where `least` was.
fn mark_bits(marks: &mut [bool], least: u32, first: u32, end: u32) -> u32
    requires { least ≤ length marks.old }
    ensures marks { record { marks = marks.new; least = result } ≡ fold with_mark (record { marks = marks.old; least = least }) (range_with_len first (end - first)) }
    ensures long { length marks.new ≡ length marks.old }
    ensures low { result ≤ least }
{
    'bits: for bit in first..end.min(least) {
        if marks[bit as usize] {
            return bit;
        }
        marks[bit as usize] = true;
    }
    least
}

impl Marks {
    /// No marks of so many bits.
    pub(crate) fn new(alloc: Global, bits: u32) -> Result<Marks, AllocError>
        ensures { IfOk result (λ marks. marks ≡ unmarked bits) }
    {
        let marks = vec![in alloc; false; bits as usize]?;
        Ok(Marks { marks, least: bits })
    }

    /// Marks the bits from a first one on, up to an end.
    pub(crate) fn mark(&mut self, first: u32, end: u32)
        ensures { self.new ≡ fold with_mark self.old (range_with_len first (end - first)) }
    {
        self.least = mark_bits(&mut self.marks, self.least, first, end);
    }

    /// The first bit that is driven twice.
    pub(crate) fn twice(&self) -> Option<u32>
        ensures { result ≡ (if nat_lt self.now.least (length self.now.marks) then Some self.now.least else None) }
    {
        if (self.least as usize) < self.marks.len() {
            return Some(self.least);
        }
        None
    }
}
