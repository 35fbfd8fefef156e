//! Laws, as contracts of functions without a body.

ghost use Rattle.std.specs.Prelude.{ℕ, List, false, Ok};
ghost use Rattle.bb_base.specs.Named.{Named};
ghost use Rattle.bb_parse.specs.declared.syntax.Module.{Module as ModuleValue};
ghost use Rattle.bb_parse.specs.Sound.{IsSoundModule};
ghost use Rattle.bb_meaning.specs.Denotes.{ElaboratesTo};
ghost use Rattle.bb_meaning.specs.Outcome.{IsOutcome};
ghost use Rattle.bb_read.specs.Ready.{IsReady};

/// A netlist that a text or a module denotes is ready, where names of this project's own are not allowed.
pub fn read_netlists_are_ready()
    ensures modules { (m : ModuleValue) (a : Named) → IsSoundModule m → IsOutcome false m (Ok a) → IsReady a }
    ensures texts { (text : List ℕ) (a : Named) → ElaboratesTo false text (Ok a) → IsReady a }
{}
