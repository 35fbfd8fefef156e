//! The names that a store was asked to write. They exist only in proofs: a store that never fails can ask for no memory
//! to keep them.
ghost use Rattle.std.specs.Prelude.{◌≡◌, List, ℕ, [], ◌∷◌};
ghost use Rattle.std.specs.Borrow.{ftrue};
ghost use Rattle.std.specs.Coded.{coded_list, coded_ℕ};

use std::marker::Model;

/// The names, the last one first. It takes no bytes.
#[derive(Drop)]
pub(crate) struct Written {
    pub ghost names: { List (List ℕ) } by { coded_list (coded_list coded_ℕ) },
}

impl Model for Written {
    ghost also_owns = { λ _. ftrue };
}

/// A name to write.
#[derive(Clone, Copy)]
pub(crate) struct Name<'a> {
    pub(crate) text: &'a str,
}

impl Written {
    /// No names.
    pub(crate) fn new() -> Written
        ensures { result.names ≡ [] }
    {
        Written {}
    }

    /// One more name.
    pub(crate) fn and(&self, _name: &Name<'_>) -> Written
        ensures { result.names ≡ _name.now.text.now ∷ self.now.names }
    {
        Written {}
    }
}
