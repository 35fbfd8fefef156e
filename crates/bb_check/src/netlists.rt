//! The two netlists: the input's, and the one with its self-test.

ghost use Rattle.std.specs.Prelude.{◌≡◌, ◌≤◌, ◌++◌, codes, true, false, IfOk, IsErrOf};
ghost use Rattle.bb_edge.specs.Causes.{Rose};
ghost use Rattle.bb_base.specs.Order.{IsOrder};
ghost use Rattle.bb_read.specs.Ready.{IsReady};
ghost use Rattle.bb_read.specs.declared.refusal.Refusal.{Refusal as RefusalValue};
ghost use Rattle.bb_read.specs.declared.refusal.TextRefusal.{TextRefusal as TextRefusalValue};
ghost use Rattle.bb_read.specs.Texts.{file_limit, output_limit, IsTextRefused};
ghost use Rattle.bb_check.specs.Passed.{IsInputOf, IsNetlistOf};
ghost use Rattle.bb_check.specs.Told.{Tells};

use bb_edge::Store;
use bb_net::Named;
use bb_netlist::Order;
use bb_read::{FILE_LIMIT, NamedFault, Refusal, Stop, read_named};
use std::alloc::Global;

/// The most bytes of each other file.
pub(crate) const OUTPUT_LIMIT: u64 = 1_099_511_627_776;

/// The netlist of the input, and the order of its gates.
pub(crate) fn read_input<S: Store>(
    alloc: Global,
    store: &mut S,
    input: &str,
) -> Result<(Named, Order), Stop>
    requires { S.may_read input.now }
    ensures original { IfOk result (λ found. Tells (S.holds store.old) input.now (IsInputOf found.0)) }
    ensures order { IfOk result (λ found. IsOrder found.0.netlist.gates found.1) }
    ensures ready { IfOk result (λ found. IsReady found.0) }
    ensures refused { (refusal : RefusalValue) → IsErrOf result (Stop.Refused refusal)
        → (fault : TextRefusalValue) × (refusal ≡ Refusal.Input fault) × Tells (S.holds store.old) input.now (IsTextRefused false file_limit fault) }
    ensures read { IsErrOf result Stop.Read → Rose (S.read_faults store.old) (S.read_faults store.new) }
    ensures later { S.read_faults store.old ≤ S.read_faults store.new }
    ensures contents { S.holds store.new ≡ S.holds store.old }
    ensures writing { S.writing store.new ≡ S.writing store.old }
    ensures write_faults { S.write_faults store.new ≡ S.write_faults store.old }
{
    match read_named(alloc, store, input, false, FILE_LIMIT) {
        Ok(found) => Ok(found),
        Err(NamedFault::Read) => Err(Stop::Read),
        Err(NamedFault::Refused(fault)) => Err(Stop::Refused(Refusal::Input(fault))),
        Err(NamedFault::NoMemory) => Err(Stop::NoMemory),
    }
}

/// The netlist of the prefix, which may use names of this project's own.
pub(crate) fn read_netlist<S: Store>(
    alloc: Global,
    store: &mut S,
    prefix: &str,
) -> Result<Named, Stop>
    requires { S.may_read (prefix.now ++ codes ".v") }
    ensures written { IfOk result (λ written. Tells (S.holds store.old) (prefix.now ++ codes ".v") (IsNetlistOf written)) }
    ensures refused { (refusal : RefusalValue) → IsErrOf result (Stop.Refused refusal)
        → (fault : TextRefusalValue) × (refusal ≡ Refusal.Netlist fault) × Tells (S.holds store.old) (prefix.now ++ codes ".v") (IsTextRefused true output_limit fault) }
    ensures read { IsErrOf result Stop.Read → Rose (S.read_faults store.old) (S.read_faults store.new) }
    ensures later { S.read_faults store.old ≤ S.read_faults store.new }
    ensures contents { S.holds store.new ≡ S.holds store.old }
    ensures writing { S.writing store.new ≡ S.writing store.old }
    ensures write_faults { S.write_faults store.new ≡ S.write_faults store.old }
{
    let name = format!(in alloc; "{prefix}.v")?;
    match read_named(alloc, store, name.as_str(), true, OUTPUT_LIMIT) {
        Ok((written, _order)) => Ok(written),
        Err(NamedFault::Read) => Err(Stop::Read),
        Err(NamedFault::Refused(fault)) => Err(Stop::Refused(Refusal::Netlist(fault))),
        Err(NamedFault::NoMemory) => Err(Stop::NoMemory),
    }
}
