//! A law about canonical texts, as the contract of a function without a body.

ghost use Rattle.std.specs.Prelude.{◌≡◌};
ghost use Rattle.bb_base.specs.Named.{Named, design_of};
ghost use Rattle.bb_spell.specs.Canonical.{canonical_text};
ghost use Rattle.bb_spell.specs.Limits.{IsNumbered};

/// A text is the canonical text of one design at most.
pub fn one_design()
    ensures { (a b : Named) → IsNumbered a → IsNumbered b → canonical_text (design_of a) ≡ canonical_text (design_of b) → design_of a ≡ design_of b }
{}
