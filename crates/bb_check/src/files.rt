//! The files in the order in which they are read, and then the rules.

ghost use Rattle.std.specs.Prelude.{◌≡◌, ◌≤◌, ◌++◌, ◌∷◌, map, ℕ, List, codes, OnOk, IsErrOf};
ghost use Rattle.std.specs.List.{AllByRecursion};
ghost use Rattle.bb_edge.specs.Causes.{Rose};
ghost use Rattle.bb_base.specs.Order.{IsOrder};
ghost use Rattle.bb_read.specs.Ready.{IsReady};
ghost use Rattle.bb_selftest.specs.SelfTest.{IsSelfTest};
ghost use Rattle.bb_words.specs.Commands.{files_of};
ghost use Rattle.bb_audit.specs.Audited.{Audited, audited};
ghost use Rattle.bb_audit.specs.Signed.{values_of};
ghost use Rattle.bb_audit.specs.Passing.{AuditPasses};
ghost use Rattle.bb_audit.specs.Faults.{IsAuditFault};
ghost use Rattle.bb_read.specs.declared.refusal.Refusal.{Refusal as RefusalValue};
ghost use Rattle.bb_check.specs.Passed.{Texts, Pass, IsInputOf, IsNetlistOf};
ghost use Rattle.bb_check.specs.Refused.{AreRefused};
ghost use Rattle.bb_check.specs.Told.{in_order, read_for, HoldTexts, Tells, AreFilesOf, FilesPass, AreFilesRefused};

use crate::form::{certificate_in, plan_in, signatures_in};
use crate::laws::{passed_or_refused, told_or_refused};
use crate::netlists::{read_input, read_netlist};
use bb_audit::{AuditFault, audit, passing_is_good};
use bb_edge::Store;
use bb_forms::{Certificate, Signature};
use bb_net::Named;
use bb_netlist::Order;
use bb_read::{Refusal, Stop};
use bb_terms::Plan;
use std::alloc::Global;

/// Whether the files meet all rules.
fn judge(
    alloc: Global,
    original: &Named,
    order: &Order,
    written: &Named,
    plan: Plan,
    signatures: &[Vec<Signature>],
    certificate: &Certificate,
) -> Result<(), Stop>
    requires order { IsOrder original.now.netlist.gates order.now }
    requires ready { IsReady original.now }
    ensures meets { OnOk result (AuditPasses (audited original.now written.now plan (map (λ session. session.items) signatures.now) certificate.now)) }
    ensures good { OnOk result (IsSelfTest original.now written.now plan (values_of (map (λ session. session.items) signatures.now))) }
    ensures refused { (refusal : RefusalValue) → IsErrOf result (Stop.Refused refusal)
        → (rule : ℕ) × (place : ℕ) × (refusal ≡ Refusal.Check rule place) × IsAuditFault (audited original.now written.now plan (map (λ session. session.items) signatures.now) certificate.now) rule place }
    ensures no_read { IsErrOf result Stop.Read → ⊥ }
{
    passing_is_good();
    // It ensures that what is judged is a named netlist.
    let _written = written.netlist();
    match audit(
        alloc,
        original,
        order,
        written,
        plan,
        signatures,
        certificate,
    ) {
        Ok(()) => Ok(()),
        Err(AuditFault::Refused { rule, place }) => Err(Stop::Refused(Refusal::Check {
            rule,
            place,
        })),
        Err(AuditFault::NoMemory) => Err(Stop::NoMemory),
    }
}

/// Reads the files beside the two netlists, and judges all.
fn check_beside<S: Store>(
    alloc: Global,
    store: &mut S,
    prefix: &str,
    original: &Named,
    order: &Order,
    written: &Named,
) -> Result<(), Stop>
    requires may { AllByRecursion S.may_read (files_of prefix.now) }
    requires order { IsOrder original.now.netlist.gates order.now }
    requires ready { IsReady original.now }
    ensures passes { OnOk result ((input : List ℕ) → Tells (S.holds store.old) input (IsInputOf original.now) → Tells (S.holds store.old) (prefix.now ++ codes ".v") (IsNetlistOf written.now)
        → (f : Audited) × AreFilesOf (S.holds store.old) input prefix.now f × AuditPasses f × IsSelfTest f.original f.written f.plan (values_of f.signatures)) }
    ensures refused { (refusal : RefusalValue) → IsErrOf result (Stop.Refused refusal) → (input : List ℕ) → Tells (S.holds store.old) input (IsInputOf original.now)
        → Tells (S.holds store.old) (prefix.now ++ codes ".v") (IsNetlistOf written.now) → AreFilesRefused input prefix.now refusal (S.holds store.old) }
    ensures read { IsErrOf result Stop.Read → Rose (S.read_faults store.old) (S.read_faults store.new) }
    ensures later { S.read_faults store.old ≤ S.read_faults store.new }
    ensures contents { S.holds store.new ≡ S.holds store.old }
    ensures writing { S.writing store.new ≡ S.writing store.old }
    ensures write_faults { S.write_faults store.new ≡ S.write_faults store.old }
{
    let plan = plan_in(alloc, store, prefix)?;
    let signatures = signatures_in(alloc, store, prefix)?;
    let certificate = certificate_in(alloc, store, prefix)?;
    judge(
        alloc,
        original,
        order,
        written,
        plan,
        &signatures,
        &certificate,
    )
}

/// Whether the files of the prefix are a self-test of the input's netlist.
///
/// The files are read in the order input, netlist, schedule, signatures and certificate, each whole; the first that isn't of its form is
/// refused before the next is begun. Then the rules are tried in their order.
pub fn check<S: Store>(alloc: Global, store: &mut S, input: &str, prefix: &str) -> Result<(), Stop>
    requires { AllByRecursion S.may_read (input.now ∷ files_of prefix.now) }
    ensures passes { OnOk result (FilesPass input.now prefix.now (S.holds store.old)) }
    ensures refused { (refusal : RefusalValue) → IsErrOf result (Stop.Refused refusal) → AreFilesRefused input.now prefix.now refusal (S.holds store.old) }
    // Files that have a refusal never pass.
    ensures always_refused { (texts : Texts) (refusal : RefusalValue) → HoldTexts (S.holds store.old) (input.now ∷ files_of prefix.now) (read_for refusal texts) → AreRefused refusal texts
        → OnOk result ⊥ }
    // Files that pass are never refused.
    ensures complete { (texts : Texts) (refusal : RefusalValue) → HoldTexts (S.holds store.old) (input.now ∷ files_of prefix.now) (in_order texts) → Pass texts
        → IsErrOf result (Stop.Refused refusal) → ⊥ }
    ensures read { IsErrOf result Stop.Read → Rose (S.read_faults store.old) (S.read_faults store.new) }
    ensures later { S.read_faults store.old ≤ S.read_faults store.new }
    ensures contents { S.holds store.new ≡ S.holds store.old }
    ensures writing { S.writing store.new ≡ S.writing store.old }
    ensures write_faults { S.write_faults store.new ≡ S.write_faults store.old }
{
    passed_or_refused();
    told_or_refused();
    let (original, order) = read_input(alloc, store, input)?;
    let written = read_netlist(alloc, store, prefix)?;
    check_beside(alloc, store, prefix, &original, &order, &written)
}
