//! The signatures that a file lists.

ghost use Rattle.std.specs.Prelude.{◌≡◌, ◌↔◌, ℕ, List, map, length, None, Some, IsTrue, IfOk};
ghost use Rattle.bb_base.specs.Order.{IsOrder};
ghost use Rattle.bb_terms.specs.Valid.{IsValidFor};
ghost use Rattle.bb_forms.specs.declared.signature.Signature.{Signature as SignatureValue};
ghost use Rattle.bb_audit.specs.Certified.{IsFirstApart};
ghost use Rattle.bb_audit.specs.Signed.{registers_of, values_of, AreSessionSignatures};

use bb_base::Netlist;
use bb_forms::Signature;
use bb_netlist::Order;
use bb_sign::signatures;
use bb_terms::{Session, Valid};
use std::alloc::{AllocError, Global};

/// Whether signatures are of these registers, in order.
fn have_registers(signed: &[Signature], registers: &[u32]) -> bool
    ensures { IsTrue result ↔ (map (λ s. s.register) signed.now ≡ registers.now) }
{
    if signed.len() != registers.len() {
        return false;
    }
    'registers: for (place, register) in registers.iter().enumerate() {
        if signed[place].register != *register {
            return false;
        }
    }
    true
}

/// Whether signatures have these values, in order.
fn have_values(signed: &[Signature], values: &[u32]) -> bool
    ensures { IsTrue result ↔ (map (λ s. s.value) signed.now ≡ values.now) }
{
    if signed.len() != values.len() {
        return false;
    }
    'values: for (place, value) in values.iter().enumerate() {
        if signed[place].value != *value {
            return false;
        }
    }
    true
}

/// Whether signatures are of these registers, with these values.
fn are_listed(signed: &[Signature], registers: &[u32], values: &[u32]) -> bool
    ensures { IsTrue result ↔ ((map (λ s. s.register) signed.now ≡ registers.now) × (map (λ s. s.value) signed.now ≡ values.now)) }
{
    if !have_registers(signed, registers) {
        return false;
    }
    have_values(signed, values)
}

/// The first session whose signatures aren't of its registers with these values, be it that one list has ended.
fn first_apart(
    signed: &[Vec<Signature>],
    sessions: &[Session],
    values: &[Vec<u32>],
) -> Option<usize>
    requires { length values.now ≡ length sessions.now }
    ensures none { result ≡ None → (registers_of (map (λ session. session.items) signed.now) ≡ sessions.now) × (values_of (map (λ session. session.items) signed.now) ≡ map (λ list. list.items) values.now) }
    ensures first { (place : ℕ) (should : List (List SignatureValue)) → result ≡ Some place → registers_of should ≡ sessions.now → values_of should ≡ map (λ list. list.items) values.now
        → IsFirstApart (map (λ session. session.items) signed.now) should place }
{
    'sessions: for (place, session) in sessions.iter().enumerate() {
        let Some(list) = signed.get(place) else {
            return Some(place);
        };
        if !are_listed(list, &session.compact, &values[place]) {
            return Some(place);
        }
    }
    if signed.len() > sessions.len() {
        return Some(sessions.len());
    }
    None
}

/// The first session whose listed signatures aren't those of its registers.
pub(crate) fn first_unsigned(
    alloc: Global,
    netlist: &Netlist,
    order: &Order,
    valid: &Valid,
    signed: &[Vec<Signature>],
) -> Result<Option<usize>, AllocError>
    requires order { IsOrder netlist.now.gates order.now }
    requires valid { IsValidFor netlist.now valid.now }
    ensures none { IfOk result (λ found. found ≡ None → AreSessionSignatures netlist.now valid.now.plan (map (λ session. session.items) signed.now)) }
    ensures first { IfOk result (λ found. (place : ℕ) → found ≡ Some place
        → (should : List (List SignatureValue)) × AreSessionSignatures netlist.now valid.now.plan should × IsFirstApart (map (λ session. session.items) signed.now) should place) }
{
    let values = signatures(alloc, netlist, order, valid)?;
    let plan = valid.plan();
    Ok(first_apart(signed, &plan.sessions, &values))
}
