//! A law about canonical texts, as the contract of a function without a body.

ghost use Rattle.std.specs.Prelude.{◌≡◌, ◌≤◌, Bool, None, Ok};
ghost use Rattle.bb_base.specs.Variables.{bit_count, limit_of};
ghost use Rattle.bb_base.specs.Named.{Named, IsNamed, design_of, IsByBits};
ghost use Rattle.bb_meaning.specs.Outcome.{first_fault, denoted, IsOutcome};
ghost use Rattle.bb_spell.specs.Canonical.{canonical_text};
ghost use Rattle.bb_canon_parse.specs.Printed.{spelled_module};
ghost use Rattle.bb_print.specs.Elaborated.{HasNamesFor, IsElaborable, Restores};

/// A canonical text's module denotes a netlist of the same design: the netlist itself where its nets are numbered by variables and
/// bits. It has no fault where its names and the number of its bits are those of a text, and where its gates have an order its text
/// elaborates to that netlist and to nothing else.
pub fn canonical_elaborates()
    ensures fault { (own : Bool) (a : Named) → IsNamed a → HasNamesFor own a → bit_count a.variables ≤ limit_of own → first_fault own (spelled_module (design_of a)) ≡ None }
    ensures named { (a : Named) → IsNamed a → IsNamed (denoted (spelled_module (design_of a))) }
    ensures design { (a : Named) → IsNamed a → design_of (denoted (spelled_module (design_of a))) ≡ design_of a }
    ensures same { (a : Named) → IsNamed a → IsByBits a → denoted (spelled_module (design_of a)) ≡ a }
    ensures outcome { (own : Bool) (a : Named) → IsNamed a → IsElaborable own a → IsOutcome own (spelled_module (design_of a)) (Ok (denoted (spelled_module (design_of a)))) }
    ensures restores { (own : Bool) (a : Named) → IsNamed a → IsElaborable own a → Restores own (canonical_text (design_of a)) a }
{}
