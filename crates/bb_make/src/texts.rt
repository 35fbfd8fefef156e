//! The four texts of a valid plan.

ghost use Rattle.std.specs.Prelude.{◌≡◌, ◌≤◌, ℕ, List, length, All, IfOk};
ghost use Rattle.bb_base.specs.Variables.{bit_count};
ghost use Rattle.bb_base.specs.Order.{HasOrder, IsOrder};
ghost use Rattle.bb_base.specs.Named.{Named as NamedValue, IsByBits, design_of};
ghost use Rattle.bb_spell.specs.Canonical.{canonical_text};
ghost use Rattle.bb_terms.specs.Valid.{IsValidFor};
ghost use Rattle.bb_terms.specs.Signatures.{AreSignatures};
ghost use Rattle.bb_ctl.specs.OwnNames.{HasOwnNames};
ghost use Rattle.bb_forms.specs.ScheduleText.{schedule_text as schedule_text_of};
ghost use Rattle.bb_forms.specs.SignatureText.{signature_text as signature_text_of};
ghost use Rattle.bb_forms.specs.CertificateText.{certificate_text as certificate_text_of};
ghost use Rattle.bb_make.specs.Files.{signed_sessions, certificate_of};
ghost use Rattle.bb_make.specs.Artifacts.{DenotesOnly, IsWovenFrom};
ghost use Rattle.bb_make.specs.Bounds.{HasBounds};

use crate::certificate::certificate_of;
use crate::signed::signed_sessions;
use bb_base::Netlist;
use bb_forms::{certificate_text, schedule_text, signature_text};
use bb_net::Named;
use bb_netlist::Order;
use bb_print::print;
use bb_sign::signatures;
use bb_terms::{Plan, Valid};
use bb_weave::weave;
use std::alloc::{AllocError, Global};

/// The text of a netlist, which denotes it and nothing else.
fn printed(alloc: Global, named: &Named) -> Result<Vec<u8>, AllocError>
    requires order { HasOrder named.now.netlist.gates }
    requires bits { bit_count named.now.variables ≤ 134217728 }
    requires by_bits { IsByBits named.now }
    ensures text { IfOk result (λ text. text.items ≡ canonical_text (design_of named.now)) }
    ensures denotes { IfOk result (λ text. DenotesOnly text.items named.now) }
{
    let mut text = Vec::new(alloc);
    print(alloc, named, &mut text)?;
    Ok(text)
}

/// The text of a netlist with a plan's self-test.
pub(crate) fn netlist_written(
    alloc: Global,
    named: &Named,
    valid: &Valid,
) -> Result<Vec<u8>, AllocError>
    requires valid { IsValidFor named.now.netlist valid.now }
    requires own { HasOwnNames named.now }
    requires few { bit_count named.now.variables ≤ 2097152 }
    ensures { IfOk result (λ text. (b : NamedValue) × IsWovenFrom named.now valid.now.plan b × (text.items ≡ canonical_text (design_of b)) × DenotesOnly text.items b) }
{
    let woven = weave(alloc, named, valid)?;
    // `netlist` ensures that it is a named netlist.
    let _woven = woven.named.netlist();
    let text = printed(alloc, &woven.named)?;
    Ok(text)
}

/// The text of a plan.
pub(crate) fn schedule_written(alloc: Global, plan: &Plan) -> Result<Vec<u8>, AllocError>
    requires { HasBounds plan.now }
    ensures { IfOk result (λ text. text.items ≡ schedule_text_of plan.now) }
{
    let mut text = Vec::new(alloc);
    schedule_text(alloc, plan, &mut text)?;
    Ok(text)
}

/// The text of a plan's signatures.
pub(crate) fn signatures_written(
    alloc: Global,
    netlist: &Netlist,
    order: &Order,
    valid: &Valid,
) -> Result<Vec<u8>, AllocError>
    requires order { IsOrder netlist.now.gates order.now }
    requires valid { IsValidFor netlist.now valid.now }
    requires bounds { HasBounds valid.now.plan }
    ensures { IfOk result (λ text. (values : List (List ℕ)) × AreSignatures netlist.now valid.now.plan values × (text.items ≡ signature_text_of (signed_sessions valid.now.plan.sessions values))) }
{
    let values = signatures(alloc, netlist, order, valid)?;
    let signed = signed_sessions(alloc, &valid.plan().sessions, &values)?;
    let mut text = Vec::new(alloc);
    signature_text(alloc, &signed, &mut text)?;
    Ok(text)
}

/// The text of a plan's certificate.
pub(crate) fn certificate_written(alloc: Global, valid: &Valid) -> Result<Vec<u8>, AllocError>
    requires bounds { HasBounds valid.now.plan }
    requires duals { All (λ segment. length segment.duals ≡ length segment.leaves) valid.now.segments }
    ensures { IfOk result (λ text. text.items ≡ certificate_text_of (certificate_of valid.now.plan valid.now.segments)) }
{
    let certificate = certificate_of(alloc, valid)?;
    let mut text = Vec::new(alloc);
    certificate_text(alloc, &certificate, &mut text)?;
    Ok(text)
}
