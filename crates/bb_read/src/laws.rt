//! Laws about texts, as contracts of functions that do nothing.

ghost use Rattle.std.specs.Prelude.{◌≡◌, ℕ, Bool, List, Result, Ok};
ghost use Rattle.bb_base.specs.Named.{Named, IsNamed};
ghost use Rattle.bb_fault.specs.declared.fault.ElabFault.{ElabFault as ElabValue};
ghost use Rattle.bb_meaning.specs.Denotes.{ElaboratesTo};
ghost use Rattle.bb_read.specs.declared.refusal.TextRefusal.{TextRefusal as TextRefusalValue};
ghost use Rattle.bb_read.specs.Texts.{ComesTo};

use bb_elab::{denotes_a_netlist, has_an_outcome, one_outcome};
use bb_grammar::{in_range as modules_in_range, one_flaw, one_module};
use bb_lex::{in_range as tokens_in_range, one_reading};

/// A text denotes one netlist or has one fault at most.
pub fn one_outcome_of()
    ensures { (own : Bool) (text : List ℕ) (a b : Result Named ElabValue) → ElaboratesTo own text a → ElaboratesTo own text b → a ≡ b }
{
    one_reading();
    one_module();
    one_outcome();
}

/// Each text is too long, has a first flaw, has a module with a first fault, or denotes a named netlist, and exactly one of these.
pub fn one_end_of()
    ensures some { (own : Bool) (limit : ℕ) (text : List ℕ) → (end : Result Named TextRefusalValue) × ComesTo own limit text end }
    ensures one { (own : Bool) (limit : ℕ) (text : List ℕ) (a b : Result Named TextRefusalValue) → ComesTo own limit text a → ComesTo own limit text b → a ≡ b }
{
    one_reading();
    tokens_in_range();
    modules_in_range();
    one_flaw();
    has_an_outcome();
    one_outcome_of();
}

/// What a text denotes is a named netlist.
pub fn read_netlists_are_named()
    ensures { (own : Bool) (text : List ℕ) (a : Named) → ElaboratesTo own text (Ok a) → IsNamed a }
{
    one_reading();
    tokens_in_range();
    modules_in_range();
    denotes_a_netlist();
}
