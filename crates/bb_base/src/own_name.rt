//! Names of this project's own: they begin with `bt_`, and those of made wires are `bt_w0`, `bt_w1` and so on.

ghost use Rattle.std.specs.Prelude.{◌≡◌, IfOk};
ghost use Rattle.bb_base.specs.OwnNames.{is_reserved, made_name};

use crate::Name;
use std::alloc::{AllocError, Global};

/// Whether a name begins as this project's own do.
pub fn is_reserved(name: &Name) -> bool
    ensures { result ≡ is_reserved name.now }
{
    name.bytes().starts_with(b"bt_")
}

/// The name of a made wire, by its number.
pub fn made_name(alloc: Global, number: u64) -> Result<Name, AllocError>
    ensures { IfOk result (λ name. name ≡ made_name number) }
{
    let text = format!(in alloc; "bt_w{number}")?;
    Name::new(alloc, text.as_bytes())
}
