//! The named netlist that the text of a file denotes.

ghost use Rattle.std.specs.Prelude.{◌≡◌, ◌≤◌, ℕ, false, List, length, IfOk, IsErrOf, Ok, Err};
ghost use Rattle.bb_edge.specs.Causes.{Rose};
ghost use Rattle.bb_edge.specs.Told.{Held};
ghost use Rattle.bb_base.specs.declared.lex_fault.LexFault.{LexFault as LexValue};
ghost use Rattle.bb_base.specs.Order.{IsOrder};
ghost use Rattle.bb_parse.specs.declared.fault.ParseFault.{ParseFault as ParseValue};
ghost use Rattle.bb_fault.specs.declared.fault.ElabFault.{ElabFault as ElabValue};
ghost use Rattle.bb_base.specs.Variables.{bit_count, limit_of};
ghost use Rattle.bb_grammar.specs.Texts.{HasLexFault, HasParseFault};
ghost use Rattle.bb_meaning.specs.Denotes.{ElaboratesTo};
ghost use Rattle.bb_read.specs.Ready.{IsReady};
ghost use Rattle.bb_read.specs.declared.refusal.TextRefusal.{TextRefusal as TextRefusalValue};
ghost use Rattle.bb_read.specs.Texts.{IsTextRefused};

use crate::fault::ReadFault;
use crate::named_fault::NamedFault;
use crate::read::read_whole;
use crate::ready::read_netlists_are_ready;
use crate::text::module_in;
use bb_edge::Store;
use bb_elab::elaborate;
use bb_fault::ElabFault;
use bb_net::Named;
use bb_netlist::Order;
use std::alloc::Global;

/// The most bytes of the input.
pub const FILE_LIMIT: u64 = 67_108_864;

/// The named netlist that a text denotes, and the order of its gates, or the text's first fault.
fn named_in(alloc: Global, text: &[u8], own: bool) -> Result<(Named, Order), ReadFault>
    ensures named { IfOk result (λ found. ElaboratesTo own text.now (Ok found.0)) }
    ensures order { IfOk result (λ found. IsOrder found.0.netlist.gates found.1) }
    ensures bits { IfOk result (λ found. bit_count found.0.variables ≤ limit_of own) }
    ensures ready { IfOk result (λ found. own ≡ false → IsReady found.0) }
    ensures lex { (fault : LexValue) → IsErrOf result (ReadFault.Lex fault) → HasLexFault text.now fault }
    ensures parse { (fault : ParseValue) → IsErrOf result (ReadFault.Parse fault) → HasParseFault text.now fault }
    ensures elab { (fault : ElabValue) → IsErrOf result (ReadFault.Elab fault) → ElaboratesTo own text.now (Err fault) }
    ensures no_read { IsErrOf result ReadFault.Read → ⊥ }
    ensures no_length { IsErrOf result ReadFault.TooLong → ⊥ }
{
    read_netlists_are_ready();
    let syntax = module_in(alloc, text)?;
    match elaborate(alloc, &syntax, own) {
        Ok(found) => Ok(found),
        Err(ElabFault::NoMemory) => Err(ReadFault::NoMemory),
        Err(fault) => Err(ReadFault::Elab(fault)),
    }
}

/// The named netlist that a file's text denotes, and the order of its gates. `own` allows names that begin with `bt_` and the
/// larger limit on bits.
///
/// A fault of the text is answered once all of it was read. Of lexical and grammatical faults the earlier in the text is answered,
/// and those of its module come last.
pub fn read_named<S: Store>(
    alloc: Global,
    store: &mut S,
    name: &str,
    own: bool,
    limit: u64,
) -> Result<(Named, Order), NamedFault>
    requires { S.may_read name.now }
    ensures named { IfOk result (λ found. (text : List ℕ) → S.holds store.old name.now ≡ Held text → (length text ≤ limit) × ElaboratesTo own text (Ok found.0)) }
    ensures order { IfOk result (λ found. IsOrder found.0.netlist.gates found.1) }
    // The wires of made nets are among the variables.
    ensures bits { IfOk result (λ found. bit_count found.0.variables ≤ limit_of own) }
    // A self-test can be woven into it.
    ensures ready { IfOk result (λ found. own ≡ false → IsReady found.0) }
    ensures read { IsErrOf result NamedFault.Read → Rose (S.read_faults store.old) (S.read_faults store.new) }
    ensures refused { (refusal : TextRefusalValue) → IsErrOf result (NamedFault.Refused refusal) → (text : List ℕ) → S.holds store.old name.now ≡ Held text → IsTextRefused own limit refusal text }
    ensures later { S.read_faults store.old ≤ S.read_faults store.new }
    ensures contents { S.holds store.new ≡ S.holds store.old }
    ensures writing { S.writing store.new ≡ S.writing store.old }
    ensures write_faults { S.write_faults store.new ≡ S.write_faults store.old }
{
    let text = read_whole(alloc, store, name, limit)?;
    let found = named_in(alloc, &text, own)?;
    Ok(found)
}
