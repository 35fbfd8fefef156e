//! What `compile` writes and says.

ghost use Rattle.std.specs.Prelude.{◌≡◌, ◌≤◌, IfOk, IsErrOf};
ghost use Rattle.bb_edge.specs.Causes.{Rose};
ghost use Rattle.bb_choose.specs.Arranged.{AreInRange};
ghost use Rattle.bb_read.specs.declared.refusal.Refusal.{Refusal as RefusalValue};
ghost use Rattle.bb_read.specs.declared.refusal.TextRefusal.{TextRefusal as TextRefusalValue};
ghost use Rattle.bb_compile.specs.Prepared.{IsMadeOf, IsRefusedOf, IsPrepared};

use crate::plan::made_of;
use crate::prepared::{Prepared, prepared_behind};
use bb_edge::Store;
use bb_make::{Artifacts, Settings};
use bb_read::{FILE_LIMIT, NamedFault, Refusal, Stop, read_named};
use std::alloc::Global;

/// Why a call whose input gives no netlist stops.
fn stop_of(fault: NamedFault) -> Stop
    ensures read { result ≡ Stop.Read → fault ≡ NamedFault.Read }
    ensures refused { (refusal : RefusalValue) → result ≡ Stop.Refused refusal → (text : TextRefusalValue) × (refusal ≡ Refusal.Input text) × (fault ≡ NamedFault.Refused text) }
{
    match fault {
        NamedFault::Read => Stop::Read,
        NamedFault::Refused(refusal) => Stop::Refused(Refusal::Input(refusal)),
        NamedFault::NoMemory => Stop::NoMemory,
    }
}

/// Reads a file and makes what is made of its text.
fn artifacts_of<S: Store>(
    alloc: Global,
    store: &mut S,
    input: &str,
    settings: &Settings,
) -> Result<Artifacts, Stop>
    requires may { S.may_read input.now }
    requires settings { AreInRange settings.now }
    ensures made { IfOk result (IsMadeOf input.now settings.now (S.holds store.old)) }
    ensures read { IsErrOf result Stop.Read → Rose (S.read_faults store.old) (S.read_faults store.new) }
    ensures refused { (refusal : RefusalValue) → IsErrOf result (Stop.Refused refusal) → IsRefusedOf input.now settings.now (S.holds store.old) refusal }
    ensures later { S.read_faults store.old ≤ S.read_faults store.new }
    ensures contents { S.holds store.new ≡ S.holds store.old }
    ensures writing { S.writing store.new ≡ S.writing store.old }
    ensures write_faults { S.write_faults store.new ≡ S.write_faults store.old }
{
    let (named, order) = match read_named(alloc, store, input, false, FILE_LIMIT) {
        Ok(found) => found,
        Err(fault) => return Err(stop_of(fault)),
    };
    made_of(alloc, &named, &order, settings)
}

/// Reads the input, and makes all that is to be written and said.
pub fn prepare<S: Store>(
    alloc: Global,
    store: &mut S,
    input: &str,
    prefix: &str,
    settings: &Settings,
) -> Result<Prepared, Stop>
    requires may { S.may_read input.now }
    requires settings { AreInRange settings.now }
    ensures prepared { IfOk result (IsPrepared input.now prefix.now settings.now (S.holds store.old)) }
    ensures read { IsErrOf result Stop.Read → Rose (S.read_faults store.old) (S.read_faults store.new) }
    ensures refused { (refusal : RefusalValue) → IsErrOf result (Stop.Refused refusal) → IsRefusedOf input.now settings.now (S.holds store.old) refusal }
    ensures later { S.read_faults store.old ≤ S.read_faults store.new }
    ensures contents { S.holds store.new ≡ S.holds store.old }
    ensures writing { S.writing store.new ≡ S.writing store.old }
    ensures write_faults { S.write_faults store.new ≡ S.write_faults store.old }
{
    let made = artifacts_of(alloc, store, input, settings)?;
    let prepared = prepared_behind(alloc, Vec::new(alloc), prefix, made)?;
    Ok(prepared)
}
