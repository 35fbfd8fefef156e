//! Laws about texts, as contracts of functions that do nothing.

ghost use Rattle.std.specs.Prelude.{◌≡◌, ℕ, List, ◌∷◌};
ghost use Rattle.bb_edge.specs.Told.{Told};
ghost use Rattle.bb_words.specs.Commands.{files_of};
ghost use Rattle.bb_audit.specs.Audited.{Audited};
ghost use Rattle.bb_audit.specs.Passing.{AuditPasses};
ghost use Rattle.bb_read.specs.declared.refusal.Refusal.{Refusal as RefusalValue};
ghost use Rattle.bb_check.specs.Passed.{Texts, AreTextsOf, Pass};
ghost use Rattle.bb_check.specs.Refused.{AreRefused};
ghost use Rattle.bb_check.specs.Told.{read_for, HoldTexts, AreFilesOf};

use bb_audit::{one_audit, passing_is_good};
use bb_forms::{one_certificate, one_list, one_plan};
use bb_read::{one_end_of, read_netlists_are_named, read_netlists_are_ready};

/// Texts of files that meet every rule pass, whoever wrote them.
pub fn audit_is_enough()
    ensures { (f : Audited) (texts : Texts) → AreTextsOf f texts → AuditPasses f → Pass texts }
{
    read_netlists_are_named();
    read_netlists_are_ready();
    passing_is_good();
}

/// Texts that pass have no refusal.
pub fn passed_or_refused()
    ensures { (texts : Texts) (refusal : RefusalValue) → Pass texts → AreRefused refusal texts → ⊥ }
{
    read_netlists_are_named();
    one_end_of();
    one_plan();
    one_list();
    one_certificate();
    one_audit();
}

/// Texts have one refusal at most.
pub fn one_refusal()
    ensures { (texts : Texts) (a b : RefusalValue) → AreRefused a texts → AreRefused b texts → a ≡ b }
{
    read_netlists_are_named();
    one_end_of();
    one_plan();
    one_list();
    one_certificate();
    one_audit();
}

/// Files that are told to be those of a self-test that meets every rule have no refusal, also where not all of them are told.
pub(crate) fn told_or_refused()
    ensures { (old : List ℕ → Told) (input prefix : List ℕ) (f : Audited) (texts : Texts) (refusal : RefusalValue) → AreFilesOf old input prefix f → AuditPasses f
        → HoldTexts old (input ∷ files_of prefix) (read_for refusal texts) → AreRefused refusal texts → ⊥ }
{
    read_netlists_are_named();
    one_end_of();
    one_plan();
    one_list();
    one_certificate();
    one_audit();
}
