//! Laws about the program, as contracts of functions that do nothing.

ghost use Rattle.std.specs.Prelude.{◌≡◌, ◌≤◌, ◌++◌, ℕ, List, length, codes};
ghost use Rattle.bb_edge.specs.Told.{Told, Held};
ghost use Rattle.bb_words.specs.declared.command.Settings.{Settings as SettingsValue};
ghost use Rattle.bb_words.specs.Commands.{Check};
ghost use Rattle.bb_make.specs.Artifacts.{ArtifactsValue};
ghost use Rattle.bb_read.specs.Texts.{file_limit};
ghost use Rattle.bb_compile.specs.Made.{IsMade, IsMadeSample, sample_text};
ghost use Rattle.bb_compile.specs.Outputs.{outputs, sample_outputs};
ghost use Rattle.bb_check.specs.Passed.{Pass};
ghost use Rattle.bb_top.specs.Needs.{HasNeeds};
ghost use Rattle.bb_top.specs.Checked.{texts_with, AreShort, AreTold};

use bb_check::audit_is_enough;
use bb_passing::made_files_pass;
use bb_read::read_netlists_are_ready;

/// What `compile` makes of a text passes beside it, and what `sample` makes passes beside the sample's own text. So a `check` of files
/// that hold it has what it needs, and nothing is refused.
pub fn compiled_files_pass()
    ensures texts { (settings : SettingsValue) (text : List ℕ) (made : ArtifactsValue) → IsMade settings text made → AreShort made → Pass (texts_with text made) }
    ensures files { (settings : SettingsValue) (text : List ℕ) (made : ArtifactsValue) (input prefix : List ℕ) (held : List ℕ → Told) → IsMade settings text made → AreShort made
        → held input ≡ Held text → AreTold (outputs prefix made) held → HasNeeds (Check input prefix) held }
    ensures samples { (settings : SettingsValue) (number : ℕ) (made : ArtifactsValue) → IsMadeSample settings number made → length (sample_text number) ≤ file_limit → AreShort made
        → Pass (texts_with (sample_text number) made) }
    ensures sample_files { (settings : SettingsValue) (number : ℕ) (made : ArtifactsValue) (prefix : List ℕ) (held : List ℕ → Told) → IsMadeSample settings number made
        → length (sample_text number) ≤ file_limit → AreShort made → AreTold (sample_outputs prefix number made) held → HasNeeds (Check (prefix ++ codes ".in.v") prefix) held }
{
    read_netlists_are_ready();
    made_files_pass();
    audit_is_enough();
}
