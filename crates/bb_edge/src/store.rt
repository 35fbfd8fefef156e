ghost use Rattle.std.specs.Prelude.{◌≡◌, ◌<◌, ◌≤◌, ℕ, List, [], Option, None, Some, length, take, drop, IfOk, OnOk, OnErr, IsErr, IsSome, IfSome};
ghost use Rattle.bb_edge.specs.Causes.{HasCause};
ghost use Rattle.bb_edge.specs.Told.{Told, Absent, Held, BeingRead, Idle, Left, IsReading, Shows, GivesFront, IsPrefix, SameBut, KeepsOrEmpties, Extends, Cuts};

/// A call of the outside failed, and a count of faults says that it did.
#[derive(Clone, Copy, Debug, PartialEq, Eq)]
pub struct Failed;

/// Files by name, of which at most one is read and at most one is written at a time. A store need not tell what it holds.
///
/// No count ever falls, and the count of a call's kind rises where the call fails, and nowhere else. Which names may be read and written is
/// settled once for a type, so that no code touches a name that its caller didn't give.
pub trait Store {
    /// What each name holds, where the store tells it.
    ghost holds: { Self → List ℕ → Told };

    /// What is being read, and what is left of it where the store tells it.
    ghost reading: { Self → BeingRead };

    /// The name that is being written.
    ghost writing: { Self → Option (List ℕ) };

    /// How often reading has failed.
    ghost read_faults: { Self → ℕ };

    /// How often writing has failed.
    ghost write_faults: { Self → ℕ };

    /// Which names may be read.
    ghost may_read: { List ℕ → Type 0 };

    /// Which names may be written.
    ghost may_write: { List ℕ → Type 0 };

    /// Starts to read a name from its first byte. A name that is told to be absent fails.
    fn begin(&mut self, name: &str) -> Result<(), Failed>
        requires { may_read name.now }
        ensures started { OnOk result (IsReading (reading self.new)) }
        ensures first { OnOk result ((text : List ℕ) → holds self.old name.now ≡ Held text → reading self.new ≡ Left text) }
        ensures failed { OnErr result (reading self.new ≡ Idle) }
        ensures absent { holds self.old name.now ≡ Absent → IsErr result }
        ensures contents { holds self.new ≡ holds self.old }
        ensures writing { writing self.new ≡ writing self.old }
        ensures write_faults { write_faults self.new ≡ write_faults self.old }
        ensures cause { HasCause (read_faults self.old) (read_faults self.new) result };

    /// Takes the next bytes into the front of the buffer, or answers 0 at the end.
    fn piece(&mut self, buf: &mut [u8]) -> Result<usize, Failed>
        requires begun { IsReading (reading self.old) }
        requires room { 0 < length buf.old }
        ensures goes_on { OnOk result (IsReading (reading self.new)) }
        ensures within { IfOk result (λ count. count ≤ length buf.new) }
        ensures bytes { IfOk result (λ count. (rest : List ℕ) → reading self.old ≡ Left rest
            → GivesFront rest (take count buf.new) (drop count rest) × (reading self.new ≡ Left (drop count rest))) }
        ensures failed { OnErr result (reading self.new ≡ Idle) }
        ensures contents { holds self.new ≡ holds self.old }
        ensures writing { writing self.new ≡ writing self.old }
        ensures write_faults { write_faults self.new ≡ write_faults self.old }
        ensures cause { HasCause (read_faults self.old) (read_faults self.new) result };

    /// Starts to write a name, which then holds nothing. Where it fails, the name may have been emptied.
    fn put_begin(&mut self, name: &str) -> Result<(), Failed>
        requires free { writing self.old ≡ None }
        requires may { may_write name.now }
        ensures started { OnOk result (writing self.new ≡ Some name.now) }
        ensures emptied { OnOk result (Shows (holds self.new name.now) []) }
        ensures failed { OnErr result (writing self.new ≡ None) }
        ensures kept { OnErr result (KeepsOrEmpties (holds self.old name.now) (holds self.new name.now)) }
        ensures others { SameBut name.now (holds self.old) (holds self.new) }
        ensures read_faults { read_faults self.new ≡ read_faults self.old }
        ensures cause { HasCause (write_faults self.old) (write_faults self.new) result };

    /// Appends to the name that is being written, or a front of the bytes where it fails.
    fn put_piece(&mut self, bytes: &[u8]) -> Result<(), Failed>
        requires { IsSome (writing self.old) }
        ensures goes_on { OnOk result (writing self.new ≡ writing self.old) }
        ensures all { OnOk result (IfSome (writing self.old) (λ name. Extends (holds self.old name) (holds self.new name) bytes.now)) }
        ensures failed { OnErr result (writing self.new ≡ None) }
        ensures front { OnErr result (IfSome (writing self.old) (λ name. (front : List ℕ) × IsPrefix front bytes.now × Extends (holds self.old name) (holds self.new name) front)) }
        ensures others { IfSome (writing self.old) (λ name. SameBut name (holds self.old) (holds self.new)) }
        ensures read_faults { read_faults self.new ≡ read_faults self.old }
        ensures cause { HasCause (write_faults self.old) (write_faults self.new) result };

    /// Ends the writing. Where it fails, the name may hold only a front of what was put.
    fn put_end(&mut self) -> Result<(), Failed>
        requires { IsSome (writing self.old) }
        ensures stopped { writing self.new ≡ None }
        ensures all { OnOk result (holds self.new ≡ holds self.old) }
        ensures front { OnErr result (IfSome (writing self.old) (λ name. Cuts (holds self.old name) (holds self.new name))) }
        ensures others { IfSome (writing self.old) (λ name. SameBut name (holds self.old) (holds self.new)) }
        ensures read_faults { read_faults self.new ≡ read_faults self.old }
        ensures cause { HasCause (write_faults self.old) (write_faults self.new) result };
}
