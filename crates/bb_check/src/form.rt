//! The files beside the netlist: the schedule, the signatures and the certificate.

ghost use Rattle.std.specs.Prelude.{◌≡◌, ◌<◌, ◌≤◌, ◌++◌, map, length, vec_len, codes, IfOk, IsErrOf};
ghost use Rattle.bb_edge.specs.Causes.{Rose};
ghost use Rattle.bb_forms.specs.ScheduleText.{AreScheduleLines};
ghost use Rattle.bb_forms.specs.SignatureText.{AreSignatureLines};
ghost use Rattle.bb_forms.specs.CertificateText.{AreCertificateLines};
ghost use Rattle.bb_read.specs.declared.refusal.Refusal.{Refusal as RefusalValue};
ghost use Rattle.bb_read.specs.declared.refusal.FormRefusal.{FormRefusal as FormRefusalValue};
ghost use Rattle.bb_read.specs.Texts.{output_limit};
ghost use Rattle.bb_check.specs.Passed.{IsScheduleOf, IsSignedBy, IsCertificateOf};
ghost use Rattle.bb_check.specs.Refused.{IsFormRefused};
ghost use Rattle.bb_check.specs.Told.{Tells};

use crate::netlists::OUTPUT_LIMIT;
use bb_edge::Store;
use bb_forms::{
    Certificate, FormFault, Signature, read_certificate, read_schedule, read_signatures,
};
use bb_read::{FormRefusal, ReadFault, Refusal, Stop, read_whole};
use bb_terms::Plan;
use std::alloc::Global;

/// The text of a file of the prefix. `too_long` is the refusal of one that has more bytes than are read.
fn read_file<S: Store>(
    alloc: Global,
    store: &mut S,
    prefix: &str,
    ending: &str,
    too_long: Refusal,
) -> Result<Vec<u8>, Stop>
    requires { S.may_read (prefix.now ++ ending.now) }
    ensures bytes { IfOk result (λ read. Tells (S.holds store.old) (prefix.now ++ ending.now) (λ text. read.items ≡ text)) }
    ensures short { IfOk result (λ read. vec_len read ≤ output_limit) }
    ensures refused { (refusal : RefusalValue) → IsErrOf result (Stop.Refused refusal)
        → (refusal ≡ too_long) × Tells (S.holds store.old) (prefix.now ++ ending.now) (λ text. output_limit < length text) }
    ensures read { IsErrOf result Stop.Read → Rose (S.read_faults store.old) (S.read_faults store.new) }
    ensures later { S.read_faults store.old ≤ S.read_faults store.new }
    ensures contents { S.holds store.new ≡ S.holds store.old }
    ensures writing { S.writing store.new ≡ S.writing store.old }
    ensures write_faults { S.write_faults store.new ≡ S.write_faults store.old }
{
    let name = format!(in alloc; "{prefix}{ending}")?;
    match read_whole(alloc, store, name.as_str(), OUTPUT_LIMIT) {
        Ok(bytes) => Ok(bytes),
        Err(ReadFault::Read) => Err(Stop::Read),
        Err(ReadFault::TooLong) => Err(Stop::Refused(too_long)),
        Err(ReadFault::Lex(_)) => unreachable!(),
        Err(ReadFault::Parse(_)) => unreachable!(),
        Err(ReadFault::Elab(_)) => unreachable!(),
        Err(ReadFault::NoMemory) => Err(Stop::NoMemory),
    }
}

/// The plan of the schedule.
pub(crate) fn plan_in<S: Store>(alloc: Global, store: &mut S, prefix: &str) -> Result<Plan, Stop>
    requires { S.may_read (prefix.now ++ codes ".sched") }
    ensures plan { IfOk result (λ plan. Tells (S.holds store.old) (prefix.now ++ codes ".sched") (IsScheduleOf plan)) }
    ensures refused { (refusal : RefusalValue) → IsErrOf result (Stop.Refused refusal)
        → (fault : FormRefusalValue) × (refusal ≡ Refusal.Schedule fault) × Tells (S.holds store.old) (prefix.now ++ codes ".sched") (IsFormRefused AreScheduleLines fault) }
    ensures read { IsErrOf result Stop.Read → Rose (S.read_faults store.old) (S.read_faults store.new) }
    ensures later { S.read_faults store.old ≤ S.read_faults store.new }
    ensures contents { S.holds store.new ≡ S.holds store.old }
    ensures writing { S.writing store.new ≡ S.writing store.old }
    ensures write_faults { S.write_faults store.new ≡ S.write_faults store.old }
{
    let too_long = Refusal::Schedule(FormRefusal::TooLong);
    let text = read_file(alloc, store, prefix, ".sched", too_long)?;
    match read_schedule(alloc, &text) {
        Ok(plan) => Ok(plan),
        Err(FormFault::BadLine { line }) => {
            Err(Stop::Refused(Refusal::Schedule(FormRefusal::Line(line))))
        }
        Err(FormFault::NoMemory) => Err(Stop::NoMemory),
    }
}

/// The signatures, a list for each session.
pub(crate) fn signatures_in<S: Store>(
    alloc: Global,
    store: &mut S,
    prefix: &str,
) -> Result<Vec<Vec<Signature>>, Stop>
    requires { S.may_read (prefix.now ++ codes ".sig") }
    ensures signatures { IfOk result (λ sessions. Tells (S.holds store.old) (prefix.now ++ codes ".sig") (IsSignedBy (map (λ session. session.items) sessions.items))) }
    ensures refused { (refusal : RefusalValue) → IsErrOf result (Stop.Refused refusal)
        → (fault : FormRefusalValue) × (refusal ≡ Refusal.Signatures fault) × Tells (S.holds store.old) (prefix.now ++ codes ".sig") (IsFormRefused AreSignatureLines fault) }
    ensures read { IsErrOf result Stop.Read → Rose (S.read_faults store.old) (S.read_faults store.new) }
    ensures later { S.read_faults store.old ≤ S.read_faults store.new }
    ensures contents { S.holds store.new ≡ S.holds store.old }
    ensures writing { S.writing store.new ≡ S.writing store.old }
    ensures write_faults { S.write_faults store.new ≡ S.write_faults store.old }
{
    let too_long = Refusal::Signatures(FormRefusal::TooLong);
    let text = read_file(alloc, store, prefix, ".sig", too_long)?;
    match read_signatures(alloc, &text) {
        Ok(sessions) => Ok(sessions),
        Err(FormFault::BadLine { line }) => {
            Err(Stop::Refused(Refusal::Signatures(FormRefusal::Line(line))))
        }
        Err(FormFault::NoMemory) => Err(Stop::NoMemory),
    }
}

/// The certificate.
pub(crate) fn certificate_in<S: Store>(
    alloc: Global,
    store: &mut S,
    prefix: &str,
) -> Result<Certificate, Stop>
    requires { S.may_read (prefix.now ++ codes ".cert") }
    ensures certificate { IfOk result (λ certificate. Tells (S.holds store.old) (prefix.now ++ codes ".cert") (IsCertificateOf certificate)) }
    ensures refused { (refusal : RefusalValue) → IsErrOf result (Stop.Refused refusal)
        → (fault : FormRefusalValue) × (refusal ≡ Refusal.Certificate fault) × Tells (S.holds store.old) (prefix.now ++ codes ".cert") (IsFormRefused AreCertificateLines fault) }
    ensures read { IsErrOf result Stop.Read → Rose (S.read_faults store.old) (S.read_faults store.new) }
    ensures later { S.read_faults store.old ≤ S.read_faults store.new }
    ensures contents { S.holds store.new ≡ S.holds store.old }
    ensures writing { S.writing store.new ≡ S.writing store.old }
    ensures write_faults { S.write_faults store.new ≡ S.write_faults store.old }
{
    let too_long = Refusal::Certificate(FormRefusal::TooLong);
    let text = read_file(alloc, store, prefix, ".cert", too_long)?;
    match read_certificate(alloc, &text) {
        Ok(certificate) => Ok(certificate),
        Err(FormFault::BadLine { line }) => {
            Err(Stop::Refused(Refusal::Certificate(FormRefusal::Line(line))))
        }
        Err(FormFault::NoMemory) => Err(Stop::NoMemory),
    }
}
