ghost use Rattle.std.specs.Prelude.{◌≡◌, ◌<◌, ◌≤◌, ℕ, List, length, vec_len, IfOk, IsErrOf};
ghost use Rattle.bb_edge.specs.Causes.{Rose};
ghost use Rattle.bb_edge.specs.Told.{Held};
ghost use Rattle.bb_base.specs.declared.lex_fault.LexFault.{LexFault as LexValue};
ghost use Rattle.bb_parse.specs.declared.fault.ParseFault.{ParseFault as ParseValue};
ghost use Rattle.bb_fault.specs.declared.fault.ElabFault.{ElabFault as ElabValue};

use crate::fault::ReadFault;
use bb_edge::Store;
use std::alloc::Global;

/// How many bytes are read at a time.
const BUFFER: usize = 65_536;

/// All bytes of a file, which has at most so many.
pub fn read_whole<S: Store>(
    alloc: Global,
    store: &mut S,
    name: &str,
    limit: u64,
) -> Result<Vec<u8>, ReadFault>
    requires { S.may_read name.now }
    ensures bytes { IfOk result (λ read. (text : List ℕ) → S.holds store.old name.now ≡ Held text → read.items ≡ text) }
    ensures short { IfOk result (λ read. vec_len read ≤ limit) }
    ensures too_long { IsErrOf result ReadFault.TooLong → (text : List ℕ) → S.holds store.old name.now ≡ Held text → limit < length text }
    ensures read { IsErrOf result ReadFault.Read → Rose (S.read_faults store.old) (S.read_faults store.new) }
    ensures no_lex { (fault : LexValue) → IsErrOf result (ReadFault.Lex fault) → ⊥ }
    ensures no_parse { (fault : ParseValue) → IsErrOf result (ReadFault.Parse fault) → ⊥ }
    ensures no_elab { (fault : ElabValue) → IsErrOf result (ReadFault.Elab fault) → ⊥ }
    ensures later { S.read_faults store.old ≤ S.read_faults store.new }
    ensures contents { S.holds store.new ≡ S.holds store.old }
    ensures writing { S.writing store.new ≡ S.writing store.old }
    ensures write_faults { S.write_faults store.new ≡ S.write_faults store.old }
{
    if store.begin(name).is_err() {
        return Err(ReadFault::Read);
    }
    let mut all = Vec::new(alloc);
    let mut buf = [0u8; BUFFER];
    'pieces: loop {
        let count = match store.piece(&mut buf) {
            Ok(count) => count,
            Err(_) => return Err(ReadFault::Read),
        };
        if count == 0 {
            return Ok(all);
        }
        if all.len() as u64 + count as u64 > limit {
            return Err(ReadFault::TooLong);
        }
        all.extend_from_slice(&buf[..count])?;
    }
}
