ghost use Rattle.std.specs.Prelude.{◌≡◌, ◌++◌, Bool, List, ℕ, OnOk, OnErr};
ghost use Rattle.bb_base.specs.Named.{design_of};
ghost use Rattle.bb_spell.specs.Canonical.{canonical_text};
ghost use Rattle.bb_print.specs.Elaborated.{IsElaborable, Restores};

use bb_net::Named;
use bb_spell::append_text;
use std::alloc::{AllocError, Global};

/// Appends the canonical text of a netlist. What it elaborates to has the same design.
pub fn print(alloc: Global, named: &Named, out: &mut Vec<u8>) -> Result<(), AllocError>
    ensures ok { OnOk result (out.new.items ≡ out.old.items ++ canonical_text (design_of named.now)) }
    ensures restores { OnOk result ((own : Bool) (text : List ℕ) → out.new.items ≡ out.old.items ++ text → IsElaborable own named.now → Restores own text named.now) }
    ensures err { OnErr result (out.new.items ≡ out.old.items) }
{
    match append_text(alloc, named, out) {
        Ok(()) => Ok(()),
        Err(error) => Err(error),
    }
}
