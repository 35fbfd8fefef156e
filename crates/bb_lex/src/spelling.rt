ghost use Rattle.std.specs.Prelude.{◌≡◌, ◌<◌, ◌≤◌, length, [], ◌∷◌, IfOk, OnOk};
ghost use Rattle.bb_base.specs.Name.{IsName, IsNameByte};
ghost use Rattle.bb_lex.specs.Machine.{grown, is_short};

use bb_base::Name;
use std::alloc::{AllocError, Global};
use std::marker::Model;

/// The bytes of a name that has begun: no more than show that it is too long.
#[derive(Drop)]
pub(crate) struct Spelling {
    bytes: Vec<u8>,
}

impl Model for Spelling {
    ghost use Rattle.std.specs.Prelude.{List, ℕ, All};
    ghost use Rattle.bb_base.specs.Name.{IsNameByte};

    ghost Value = { List ℕ };

    ghost view = { λ s. s.bytes.items };

    ghost invariant = { λ s. All IsNameByte s.bytes.items };
}

impl Spelling {
    /// No name.
    pub fn new(alloc: Global) -> Spelling
        ensures { result ≡ [] }
    {
        Spelling {
            bytes: Vec::new(alloc),
        }
    }

    /// Begins a name with this byte.
    pub fn start(&mut self, b: u8) -> Result<(), AllocError>
        requires { IsNameByte b }
        ensures { OnOk result (self.new ≡ b ∷ []) }
    {
        self.bytes.clear();
        self.bytes.push(b)?;
        Ok(())
    }

    /// One more byte.
    pub fn push(&mut self, b: u8) -> Result<(), AllocError>
        requires { IsNameByte b }
        ensures { OnOk result (self.new ≡ grown self.old b) }
    {
        if self.bytes.len() < 1025 {
            self.bytes.push(b)?;
        }
        Ok(())
    }

    /// Whether the name isn't too long.
    pub fn is_short(&self) -> bool
        ensures { result ≡ is_short self.now }
    {
        1 <= self.bytes.len() && self.bytes.len() <= 1024
    }

    /// The bytes that are kept.
    pub fn bytes(&self) -> &[u8]
        ensures { result.now ≡ self.now }
    {
        &self.bytes
    }

    /// The whole name.
    pub fn name(&self, alloc: Global) -> Result<Name, AllocError>
        requires some { 0 < length self.now }
        requires short { length self.now ≤ 1024 }
        ensures { IfOk result (λ name. name ≡ self.now) }
    {
        Name::new(alloc, &self.bytes)
    }
}
