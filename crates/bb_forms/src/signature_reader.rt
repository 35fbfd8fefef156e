ghost use Rattle.std.specs.Prelude.{◌≡◌, ◌≢◌, ◌<◌, ℕ, List, [], map, None, IfOk, IfSome, IsSome, IsErrOf};
ghost use Rattle.bb_spell.specs.Front.{IsRead};
ghost use Rattle.bb_forms.specs.declared.signature.Signature.{Signature as SignatureValue};
ghost use Rattle.bb_forms.specs.Forms.{IsUnformedLine};
ghost use Rattle.bb_forms.specs.SignatureText.{AreFormedSignatures, AreSignatureLines, signature_text as text_of};
ghost use Rattle.bb_forms.specs.SignatureStages.{signature_of, behind_signed, within_signed, signature_stage};

use crate::Signature;
use crate::fault::{FormFault, bad_line};
use crate::fields::{read_field, read_field_line, read_hex};
use bb_spell::{LineFault, after, begins_with, next_line};
use std::alloc::Global;
use std::marker::Model;

/// Whole sessions' signatures.
#[derive(Drop)]
struct Signed {
    sessions: Vec<Vec<Signature>>,
}

impl Model for Signed {
    ghost use Rattle.std.specs.Prelude.{List, map};
    ghost use Rattle.bb_forms.specs.declared.signature.Signature.{Signature as SignatureValue};

    ghost Value = { List (List SignatureValue) };

    ghost view = { λ s. map (λ v. v.items) s.sessions.items };
}

/// Whole sessions' signatures, and those of the session that is being read.
#[derive(Drop)]
struct Listing {
    done: Signed,
    current: Vec<Signature>,
}

impl Model for Listing {
    ghost use Rattle.bb_forms.specs.Listing.{ListingValue};

    ghost Value = { ListingValue };

    ghost view = { λ l. record { done = l.done; current = l.current.items } };
}

/// How far a text has come.
#[derive(Drop)]
enum SignatureStage {
    Head,
    First,
    Within(Listing),
    End(Signed),
}

#[tactic(auto, unfolding(crate::specs::SignatureStages::signature_of))]
fn read_signature(line: &[u8]) -> Result<Signature, LineFault>
    ensures { IsRead (λ s. s) result (signature_of line.now) }
{
    let from = after(b"register", line)?;
    let (register, rest) = read_field(from)?;
    let (value, rest) = read_hex(rest)?;
    if rest.is_empty() {
        Ok(Signature { register, value })
    } else {
        Err(LineFault::NotCanonical)
    }
}

#[tactic(auto, unfolding(crate::specs::SignatureStages::behind_signed))]
fn behind_session(alloc: Global, done: Signed, line: &[u8]) -> Result<SignatureStage, LineFault>
    ensures { IsRead (λ s. s) result (behind_signed done line.now) }
{
    if line == b"end".as_slice() {
        return Ok(SignatureStage::End(done));
    }
    let number = read_field_line(b"session", line)?;
    if number as usize == done.sessions.len() {
        let current = Vec::new(alloc);
        Ok(SignatureStage::Within(Listing { done, current }))
    } else {
        Err(LineFault::NotCanonical)
    }
}

#[tactic(auto, unfolding(crate::specs::SignatureStages::within_signed))]
fn within_session(alloc: Global, listing: Listing, line: &[u8]) -> Result<SignatureStage, LineFault>
    ensures { IsRead (λ s. s) result (within_signed listing.done listing.current line.now) }
{
    let Listing {
        mut done,
        mut current,
    } = listing;
    if begins_with(b"register", line) {
        current.push(read_signature(line)?)?;
        return Ok(SignatureStage::Within(Listing { done, current }));
    }
    done.sessions.push(current)?;
    behind_session(alloc, done, line)
}

/// The stage behind a line.
fn stage_behind(
    alloc: Global,
    stage: SignatureStage,
    line: &[u8],
) -> Result<SignatureStage, LineFault>
    ensures { IsRead (λ s. s) result (signature_stage stage line.now) }
{
    match stage {
        SignatureStage::Head => {
            if line == b"bilbo-signatures 1".as_slice() {
                Ok(SignatureStage::First)
            } else {
                Err(LineFault::NotCanonical)
            }
        }
        SignatureStage::First => {
            let sessions = Vec::new(alloc);
            behind_session(alloc, Signed { sessions }, line)
        }
        SignatureStage::Within(listing) => within_session(alloc, listing, line),
        SignatureStage::End(_sessions) => Err(LineFault::NotCanonical),
    }
}

/// The signatures, where the text has ended behind its last line.
fn finished(stage: SignatureStage, rest: &[u8]) -> Option<Vec<Vec<Signature>>>
    ensures value { IfSome result (λ sessions. stage ≡ SignatureStage.End (map (λ s. s.items) sessions.items)) }
    ensures ended { IsSome result → rest.now ≡ [] }
    ensures unended { result ≡ None → (value : List (List SignatureValue)) → stage ≡ SignatureStage.End value → rest.now ≢ [] }
{
    match stage {
        SignatureStage::End(signed) => {
            if rest.is_empty() {
                Some(signed.sessions)
            } else {
                None
            }
        }
        _ => None,
    }
}

/// The signatures of which this is the text, a list for each session, or the first line that isn't of the form or is missing.
pub fn read_signatures(alloc: Global, text: &[u8]) -> Result<Vec<Vec<Signature>>, FormFault>
    ensures formed { IfOk result (λ sessions. AreFormedSignatures (map (λ s. s.items) sessions.items)) }
    ensures text { IfOk result (λ sessions. text.now ≡ text_of (map (λ s. s.items) sessions.items)) }
    ensures line { (told : ℕ) → IsErrOf result (FormFault.BadLine told) → IsUnformedLine AreSignatureLines told text.now }
    ensures only { (told : ℕ) → IsErrOf result (FormFault.BadLine told) → (sessions : List (List SignatureValue)) → AreFormedSignatures sessions → text.now ≢ text_of sessions }
{
    let mut rest = text;
    let mut stage = SignatureStage::Head;
    let mut lines = 0;
    'lines: while let Some((line, after)) = next_line(rest) {
        stage = match stage_behind(alloc, stage, line) {
            Ok(stage) => stage,
            Err(LineFault::NotCanonical) => return Err(bad_line(lines)),
            Err(LineFault::NoMemory) => return Err(FormFault::NoMemory),
        };
        lines += 1;
        rest = after;
    }
    match finished(stage, rest) {
        Some(sessions) => Ok(sessions),
        None => Err(bad_line(lines)),
    }
}
