//! The lines of refusals.

ghost use Rattle.std.specs.Prelude.{◌≡◌, ◌++◌, IfOk, OnOk};
ghost use Rattle.bb_read.specs.Lines.{refusal_words, refusal_line};

use crate::form_words::{put_form_words, put_rule};
use crate::plan_words::put_plan_words;
use crate::refusal::Refusal;
use crate::text_words::put_text_words;
use std::alloc::{AllocError, Global};

/// Appends the words of a refusal.
fn put_words(alloc: Global, line: &mut Vec<u8>, refusal: &Refusal) -> Result<(), AllocError>
    ensures { OnOk result (line.new.items ≡ line.old.items ++ refusal_words refusal.now) }
{
    match refusal {
        Refusal::Input(refusal) => {
            line.extend_from_slice(b"input: ")?;
            put_text_words(alloc, line, refusal)
        }
        Refusal::Plan(refusal) => {
            line.extend_from_slice(b"plan: ")?;
            put_plan_words(alloc, line, refusal)
        }
        Refusal::Netlist(refusal) => {
            line.extend_from_slice(b"netlist: ")?;
            put_text_words(alloc, line, refusal)
        }
        Refusal::Schedule(refusal) => {
            line.extend_from_slice(b"schedule: ")?;
            put_form_words(alloc, line, refusal)
        }
        Refusal::Signatures(refusal) => {
            line.extend_from_slice(b"signatures: ")?;
            put_form_words(alloc, line, refusal)
        }
        Refusal::Certificate(refusal) => {
            line.extend_from_slice(b"certificate: ")?;
            put_form_words(alloc, line, refusal)
        }
        Refusal::Check { rule, place } => {
            line.extend_from_slice(b"check: ")?;
            put_rule(alloc, line, *rule, *place)
        }
    }
}

/// The line of a refusal.
pub fn line_of(alloc: Global, refusal: &Refusal) -> Result<Vec<u8>, AllocError>
    ensures { IfOk result (λ line. line.items ≡ refusal_line refusal.now) }
{
    let mut line = Vec::from_slice(alloc, b"refused ")?;
    put_words(alloc, &mut line, refusal)?;
    line.extend_from_slice(b"\n")?;
    Ok(line)
}
