//! Laws, as contracts of functions without a body.

ghost use Rattle.std.specs.Prelude.{◌≡◌, ℕ};
ghost use Rattle.bb_base.specs.Named.{IsNamed};
ghost use Rattle.bb_ctl.specs.OwnNames.{HasOwnNames};
ghost use Rattle.bb_selftest.specs.SelfTest.{IsSelfTest};
ghost use Rattle.bb_audit.specs.Audited.{Audited};
ghost use Rattle.bb_audit.specs.Signed.{values_of};
ghost use Rattle.bb_audit.specs.Passing.{AuditPasses};
ghost use Rattle.bb_audit.specs.Faults.{IsAuditFault};

/// Files that pass are a self-test of the original by their plan, with the signatures that they list, whoever wrote them.
pub fn passing_is_good()
    ensures { (f : Audited) → IsNamed f.original → HasOwnNames f.original → IsNamed f.written → AuditPasses f → IsSelfTest f.original f.written f.plan (values_of f.signatures) }
{}

/// Files have one first fault at most, at one place, and files that pass have none.
pub fn one_audit()
    ensures one { (f : Audited) (n x m y : ℕ) → IsNamed f.original → IsNamed f.written → IsAuditFault f n x → IsAuditFault f m y → (n ≡ m) × (x ≡ y) }
    ensures none { (f : Audited) (n x : ℕ) → IsNamed f.original → IsNamed f.written → AuditPasses f → IsAuditFault f n x → ⊥ }
{}
