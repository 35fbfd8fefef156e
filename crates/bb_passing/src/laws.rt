//! Laws, as contracts of functions without a body.

ghost use Rattle.std.specs.Prelude.{◌≤◌, ℕ, List};
ghost use Rattle.bb_base.specs.Variables.{bit_count};
ghost use Rattle.bb_base.specs.Named.{Named, IsNamed};
ghost use Rattle.bb_words.specs.declared.command.Settings.{Settings};
ghost use Rattle.bb_make.specs.Artifacts.{ArtifactsValue, AreArtifacts};
ghost use Rattle.bb_audit.specs.Audited.{Audited};
ghost use Rattle.bb_passing.specs.Passing.{PassAs};

/// What is made of a netlist of at most 2,097,152 bits passes beside it, whatever the settings.
pub fn made_files_pass()
    ensures { (a : Named) (order : List ℕ) (settings : Settings) (made : ArtifactsValue) → IsNamed a → bit_count a.variables ≤ 2097152 → AreArtifacts a order settings made
        → (f : Audited) × PassAs a made f }
{}
