//! A law about canonical texts, as the contract of a function without a body.

ghost use Rattle.bb_base.specs.Named.{Named, design_of};
ghost use Rattle.bb_grammar.specs.Texts.{IsModuleOf};
ghost use Rattle.bb_spell.specs.Canonical.{canonical_text};
ghost use Rattle.bb_spell.specs.Limits.{IsNumbered};
ghost use Rattle.bb_canon_parse.specs.Printed.{spelled_module};

/// A canonical text is that of the module which its design spells.
pub fn canonical_denotes()
    ensures { (a : Named) → IsNumbered a → IsModuleOf (spelled_module (design_of a)) (canonical_text (design_of a)) }
{}
