//! Laws about what is made and refused, as contracts of functions that do nothing.

ghost use Rattle.std.specs.Prelude.{◌≡◌, ◌≤◌, ℕ, List, length};
ghost use Rattle.bb_base.specs.Order.{IsOrder};
ghost use Rattle.bb_base.specs.Named.{Named};
ghost use Rattle.bb_words.specs.declared.command.Settings.{Settings as SettingsValue};
ghost use Rattle.bb_sample.specs.Sample.{sample_of};
ghost use Rattle.bb_read.specs.Ready.{IsReady};
ghost use Rattle.bb_choose.specs.Arranged.{AreInRange};
ghost use Rattle.bb_choose.specs.Enough.{IsEnough};
ghost use Rattle.bb_make.specs.Artifacts.{ArtifactsValue};
ghost use Rattle.bb_read.specs.declared.refusal.Refusal.{Refusal as RefusalValue};
ghost use Rattle.bb_read.specs.Texts.{file_limit, IsReadable};
ghost use Rattle.bb_compile.specs.Made.{IsMade, IsMadeSample, IsReadAlone, sample_text};
ghost use Rattle.bb_compile.specs.Causes.{IsRefused, IsSampleRefused};

use bb_choose::{enough_is_chosen, one_arrangement};
use bb_print::canonical_elaborates;
use bb_read::{one_end_of, read_netlists_are_ready};
use bb_runs::one_order;
use bb_sample::samples_are_netlists;

/// A self-test can be woven into each sample.
pub(crate) fn samples_are_ready()
    ensures { (number : ℕ) → 1 ≤ number → number ≤ 65536 → IsReady (sample_of number) }
{
    samples_are_netlists();
}

/// The text of each sample denotes the sample, and nothing else.
pub fn sample_texts_denote()
    ensures { (number : ℕ) → 1 ≤ number → number ≤ 65536 → IsReadAlone (sample_of number) (sample_text number) }
{
    samples_are_netlists();
    canonical_elaborates();
}

/// What is made of a text, or of a sample, and a refusal of it never stand together.
pub fn made_or_refused()
    ensures texts { (settings : SettingsValue) (text : List ℕ) (made : ArtifactsValue) (refusal : RefusalValue) → IsMade settings text made → IsRefused settings refusal text → ⊥ }
    ensures samples { (settings : SettingsValue) (number : ℕ) (made : ArtifactsValue) (refusal : RefusalValue) → 1 ≤ number → number ≤ 65536
        → IsMadeSample settings number made → IsSampleRefused settings number refusal → ⊥ }
{
    one_end_of();
    one_order();
    one_arrangement();
    read_netlists_are_ready();
    samples_are_ready();
}

/// A text whose netlist has room for a plan has no refusal, and neither has a sample that has room for one.
pub fn room_is_enough()
    ensures texts { (settings : SettingsValue) (text : List ℕ) (a : Named) (order : List ℕ) (refusal : RefusalValue) → AreInRange settings → length text ≤ file_limit
        → IsReadable a text → IsOrder a.netlist.gates order → IsEnough a.netlist order settings → IsRefused settings refusal text → ⊥ }
    ensures samples { (settings : SettingsValue) (number : ℕ) (order : List ℕ) (refusal : RefusalValue) → AreInRange settings → 1 ≤ number → number ≤ 65536
        → IsOrder (sample_of number).netlist.gates order → IsEnough (sample_of number).netlist order settings → IsSampleRefused settings number refusal → ⊥ }
{
    one_end_of();
    one_order();
    enough_is_chosen();
    read_netlists_are_ready();
    samples_are_ready();
}
