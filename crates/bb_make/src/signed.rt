//! The signatures of a plan's sessions beside the registers that have them.

ghost use Rattle.std.specs.Prelude.{◌≡◌, length, map, IfOk};
ghost use Rattle.std.specs.List.{AllZip};
ghost use Rattle.bb_make.specs.Files.{signed_session, signed_sessions};

use bb_forms::Signature;
use bb_terms::Session;
use std::alloc::{AllocError, Global};

/// The registers of a session, each with its signature.
fn signed_session(
    alloc: Global,
    registers: &[u32],
    values: &[u32],
) -> Result<Vec<Signature>, AllocError>
    requires { length values.now ≡ length registers.now }
    ensures { IfOk result (λ list. list.items ≡ signed_session registers.now values.now) }
{
    let mut list = Vec::new(alloc);
    'registers: for (place, register) in registers.iter().enumerate() {
        list.push(Signature {
            register: *register,
            value: values[place],
        })?;
    }
    Ok(list)
}

/// The registers of each session with their signatures.
pub(crate) fn signed_sessions(
    alloc: Global,
    sessions: &[Session],
    values: &[Vec<u32>],
) -> Result<Vec<Vec<Signature>>, AllocError>
    requires { AllZip (λ session written. length written ≡ length session) sessions.now (map (λ list. list.items) values.now) }
    ensures { IfOk result (λ lists. map (λ list. list.items) lists.items ≡ signed_sessions sessions.now (map (λ list. list.items) values.now)) }
{
    let mut lists = Vec::new(alloc);
    'sessions: for (place, session) in sessions.iter().enumerate() {
        lists.push(signed_session(alloc, &session.compact, &values[place])?)?;
    }
    Ok(lists)
}
