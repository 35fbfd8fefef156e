//! The rules of a self-test's files, in their order.

ghost use Rattle.std.specs.Prelude.{◌≡◌, ◌≤◌, ◌-◌, ◌^◌, ℕ, map, min, OnOk, IsErrOf};
ghost use Rattle.bb_base.specs.Variables.{bit_count};
ghost use Rattle.bb_base.specs.Order.{IsOrder};
ghost use Rattle.bb_ctl.specs.OwnNames.{HasOwnNames};
ghost use Rattle.bb_terms.specs.Valid.{IsValidFor};
ghost use Rattle.bb_audit.specs.Audited.{audited};
ghost use Rattle.bb_audit.specs.Passing.{AuditPasses};
ghost use Rattle.bb_audit.specs.Faults.{IsAuditFault};

use crate::AuditFault;
use crate::duals::first_without_duals;
use crate::lines::{first_apart, has_period};
use crate::sessions::first_unsigned;
use bb_alike::difference;
use bb_forms::{Certificate, Signature};
use bb_net::Named;
use bb_netlist::Order;
use bb_plan::validate;
use bb_terms::{Plan, PlanFault, Valid};
use bb_weave::weave;
use std::alloc::Global;

/// The refusal of a plan.
fn of_plan(fault: PlanFault) -> AuditFault
    ensures rule { (number place : ℕ) → result ≡ AuditFault.Refused number place → fault ≡ PlanFault.Rule number place }
{
    match fault {
        PlanFault::Rule { number, place } => AuditFault::Refused {
            rule: number,
            place,
        },
        PlanFault::NoMemory => AuditFault::NoMemory,
    }
}

/// A refusal at a place, where the greatest number that fits stands for more.
fn refused(rule: u8, place: u64) -> AuditFault
    ensures { result ≡ AuditFault.Refused rule (min (2 ^ 32 - 1) place) }
{
    AuditFault::Refused {
        rule,
        place: place.min(u64::from(u32::MAX)) as u32,
    }
}

/// The files of a valid plan: whether they meet the rules from the fifteenth on.
fn audit_files(
    alloc: Global,
    original: &Named,
    order: &Order,
    written: &Named,
    valid: &Valid,
    signatures: &[Vec<Signature>],
    certificate: &Certificate,
) -> Result<(), AuditFault>
    requires order { IsOrder original.now.netlist.gates order.now }
    requires own { HasOwnNames original.now }
    requires few { bit_count original.now.variables ≤ 2097152 }
    requires valid { IsValidFor original.now.netlist valid.now }
    ensures passes { OnOk result (AuditPasses (audited original.now written.now valid.now.plan (map (λ session. session.items) signatures.now) certificate.now)) }
    ensures refused { (rule place : ℕ) → IsErrOf result (AuditFault.Refused rule place)
        → IsAuditFault (audited original.now written.now valid.now.plan (map (λ session. session.items) signatures.now) certificate.now) rule place }
{
    let plan = valid.plan();
    if !has_period(certificate, plan) {
        return Err(refused(15, 2));
    }
    if let Some(place) = first_apart(&certificate.segments, valid.segments()) {
        return Err(refused(15, (place as u64).saturating_add(3)));
    }
    let without = first_without_duals(alloc, plan, &certificate.segments)?;
    if let Some(cell) = without {
        return Err(refused(16, u64::from(cell)));
    }
    let woven = weave(alloc, original, valid)?;
    // `netlist` ensures that both are named netlists.
    let _woven = woven.named.netlist();
    let _written = written.netlist();
    let differs = difference(alloc, &woven.named, written)?;
    if let Some(net) = differs {
        return Err(refused(17, u64::from(net)));
    }
    let unsigned = first_unsigned(alloc, original.netlist(), order, valid, signatures)?;
    if let Some(session) = unsigned {
        return Err(refused(18, session as u64));
    }
    Ok(())
}

/// Judges the files of a self-test beside the original netlist: whether they meet all rules, else the first that they fail and the place
/// at which they first do. A place beyond 2^32 - 1 is answered as that number. The plan is dropped.
///
/// The places: those of `validate` for rules 1 to 14; the line of the certificate's file for rule 15; an observer's cell number for rule
/// 16; for rule 17 0 for module, ports or clock, and else a net of the netlist that `weave` answers, counted from 1; the session for rule 18.
/// Each site is looked up once in each netlist, so that the time is that of `validate`, `weave` and `signatures` and of the files' lengths.
pub fn audit(
    alloc: Global,
    original: &Named,
    order: &Order,
    written: &Named,
    plan: Plan,
    signatures: &[Vec<Signature>],
    certificate: &Certificate,
) -> Result<(), AuditFault>
    requires order { IsOrder original.now.netlist.gates order.now }
    requires own { HasOwnNames original.now }
    requires few { bit_count original.now.variables ≤ 2097152 }
    ensures passes { OnOk result (AuditPasses (audited original.now written.now plan (map (λ session. session.items) signatures.now) certificate.now)) }
    ensures refused { (rule place : ℕ) → IsErrOf result (AuditFault.Refused rule place)
        → IsAuditFault (audited original.now written.now plan (map (λ session. session.items) signatures.now) certificate.now) rule place }
{
    let valid = match validate(alloc, original.netlist(), order, plan) {
        Ok(valid) => valid,
        Err(fault) => return Err(of_plan(fault)),
    };
    match audit_files(
        alloc,
        original,
        order,
        written,
        &valid,
        signatures,
        certificate,
    ) {
        Ok(()) => Ok(()),
        Err(fault) => Err(fault),
    }
}
