ghost use Rattle.std.specs.Prelude.{ℕ, List, Option, OnErr, OnOk};
ghost use Rattle.bb_edge.specs.Causes.{HasCause};
ghost use Rattle.bb_edge.specs.Told.{AppendsAll, AppendsFront};

use crate::Failed;

/// Where lines are put. The count of faults never falls, and rises where a put fails, and nowhere else.
pub trait Sink {
    /// The bytes that were put so far, where the sink tells them.
    ghost told: { Self → Option (List ℕ) };

    /// How often a put has failed.
    ghost faults: { Self → ℕ };

    /// Appends the bytes, or a front of them where it fails.
    fn put(&mut self, bytes: &[u8]) -> Result<(), Failed>
        ensures all { OnOk result (AppendsAll (told self.old) (told self.new) bytes.now) }
        ensures front { OnErr result (AppendsFront (told self.old) (told self.new) bytes.now) }
        ensures cause { HasCause (faults self.old) (faults self.new) result };
}
