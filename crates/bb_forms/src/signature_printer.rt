ghost use Rattle.std.specs.Prelude.{◌≡◌, ◌++◌, ◌≤◌, length, map, OnOk, OnErr, IfOk};
ghost use Rattle.std.specs.List.{flat_map};
ghost use Rattle.bb_spell.specs.Canonical.{with_feed};
ghost use Rattle.bb_forms.specs.Fields.{field_limit};
ghost use Rattle.bb_forms.specs.SignatureText.{signature_line, signed_from, signature_text as text_of};

use crate::Signature;
use crate::fields::{write_field, write_hex, write_number_line};
use std::alloc::{AllocError, Global};

fn write_signature(text: &mut Vec<u8>, signature: Signature) -> Result<(), AllocError>
    ensures { OnOk result (text.new.items ≡ text.old.items ++ with_feed (signature_line signature)) }
{
    text.extend_from_slice(b"register")?;
    write_field(text, u64::from(signature.register))?;
    write_hex(text, signature.value)?;
    text.extend_from_slice(b"\n")
}

fn write_signatures(text: &mut Vec<u8>, signatures: &[Signature]) -> Result<(), AllocError>
    ensures { OnOk result (text.new.items ≡ text.old.items ++ flat_map with_feed (map signature_line signatures.now)) }
{
    'signatures: for signature in signatures {
        write_signature(text, *signature)?;
    }
    Ok(())
}

fn write_sessions(text: &mut Vec<u8>, sessions: &[Vec<Signature>]) -> Result<(), AllocError>
    ensures { OnOk result (text.new.items ≡ text.old.items ++ flat_map with_feed (signed_from 0 (map (λ s. s.items) sessions.now))) }
{
    'sessions: for (number, session) in sessions.iter().enumerate() {
        write_number_line(text, b"session", number as u64)?;
        write_signatures(text, session)?;
    }
    Ok(())
}

fn written(alloc: Global, sessions: &[Vec<Signature>]) -> Result<Vec<u8>, AllocError>
    ensures { IfOk result (λ text. text.items ≡ text_of (map (λ s. s.items) sessions.now)) }
{
    let mut text = Vec::from_slice(alloc, b"bilbo-signatures 1\n")?;
    write_sessions(&mut text, sessions)?;
    text.extend_from_slice(b"end\n")?;
    Ok(text)
}

/// Appends the text of signatures, a list for each session, or leaves the bytes as they were.
pub fn signature_text(
    alloc: Global,
    sessions: &[Vec<Signature>],
    out: &mut Vec<u8>,
) -> Result<(), AllocError>
    requires { length sessions.now ≤ field_limit }
    ensures ok { OnOk result (out.new.items ≡ out.old.items ++ text_of (map (λ s. s.items) sessions.now)) }
    ensures err { OnErr result (out.new.items ≡ out.old.items) }
{
    let text = written(alloc, sessions)?;
    out.extend_from_slice(&text)
}
