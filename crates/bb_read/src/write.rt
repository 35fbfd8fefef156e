ghost use Rattle.std.specs.Prelude.{◌≡◌, ℕ, List, None, IsSome, IfSome, OnOk, OnErr};
ghost use Rattle.bb_edge.specs.Causes.{HasCause};
ghost use Rattle.bb_edge.specs.Told.{Shows, IsPrefix, SameBut, KeepsOrStarts, Extends};

use bb_edge::{Failed, Store};

/// How many bytes are written at a time.
const PIECE: usize = 65_536;

/// Appends a text to the file that is being written, or a front of it where it fails.
fn put_all<S: Store>(store: &mut S, text: &[u8]) -> Result<(), Failed>
    requires { IsSome (S.writing store.old) }
    ensures goes_on { OnOk result (S.writing store.new ≡ S.writing store.old) }
    ensures all { OnOk result (IfSome (S.writing store.old) (λ name. Extends (S.holds store.old name) (S.holds store.new name) text.now)) }
    ensures failed { OnErr result (S.writing store.new ≡ None) }
    ensures front { OnErr result (IfSome (S.writing store.old) (λ name. (front : List ℕ) × IsPrefix front text.now × Extends (S.holds store.old name) (S.holds store.new name) front)) }
    ensures others { IfSome (S.writing store.old) (λ name. SameBut name (S.holds store.old) (S.holds store.new)) }
    ensures read_faults { S.read_faults store.new ≡ S.read_faults store.old }
    ensures cause { HasCause (S.write_faults store.old) (S.write_faults store.new) result }
{
    let mut rest = text;
    'pieces: while !rest.is_empty() {
        let (piece, after) = rest.split_at(rest.len().min(PIECE));
        store.put_piece(piece)?;
        rest = after;
    }
    Ok(())
}

/// Writes a whole file.
pub fn write_whole<S: Store>(store: &mut S, name: &str, text: &[u8]) -> Result<(), Failed>
    requires free { S.writing store.old ≡ None }
    requires may { S.may_write name.now }
    ensures free { S.writing store.new ≡ None }
    ensures whole { OnOk result (Shows (S.holds store.new name.now) text.now) }
    ensures partly { OnErr result (KeepsOrStarts (S.holds store.old name.now) (S.holds store.new name.now) text.now) }
    ensures others { SameBut name.now (S.holds store.old) (S.holds store.new) }
    ensures read_faults { S.read_faults store.new ≡ S.read_faults store.old }
    ensures cause { HasCause (S.write_faults store.old) (S.write_faults store.new) result }
{
    store.put_begin(name)?;
    put_all(store, text)?;
    store.put_end()
}
