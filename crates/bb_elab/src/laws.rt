//! Laws about definitions, as contracts of functions without a body.

ghost use Rattle.std.specs.Prelude.{◌≡◌, ℕ, Bool, true, None, Result};
ghost use Rattle.std.specs.List.{AllByRecursion};
ghost use Rattle.bb_base.specs.Variables.{Bit};
ghost use Rattle.bb_base.specs.Net.{Flop};
ghost use Rattle.bb_base.specs.Run.{Meets};
ghost use Rattle.bb_base.specs.Named.{Named, IsNamed, design_of};
ghost use Rattle.bb_parse.specs.declared.syntax.Module.{Module as ModuleValue};
ghost use Rattle.bb_parse.specs.Sound.{IsSoundModule};
ghost use Rattle.bb_fault.specs.declared.fault.ElabFault.{ElabFault};
ghost use Rattle.bb_parse.specs.Trees.{File as FileTree};
ghost use Rattle.bb_parse.specs.Meaning.{module_of};
ghost use Rattle.bb_scope.specs.Variables.{variables};
ghost use Rattle.bb_drive.specs.Nets.{bit_text};
ghost use Rattle.bb_drive.specs.Clock.{is_clock};
ghost use Rattle.bb_meaning.specs.Values.{Bits, reference_bits};
ghost use Rattle.bb_meaning.specs.Statements.{StatementHolds};
ghost use Rattle.bb_meaning.specs.Outcome.{IsOutcome, first_fault, denoted, variables_in, work_in};

/// What a module without a fault but a loop denotes is a named netlist: each net has one driver, arities hold, and names differ. The
/// module is one of a text: its names are names, its numbers are in their ranges, and its primitives have operators of keywords.
pub fn denotes_a_netlist()
    ensures { (own : Bool) (m : ModuleValue) → IsSoundModule m → first_fault own m ≡ None → IsNamed (denoted m) }
{}

/// Each module of a text has an outcome: it denotes a named netlist whose gates have an order, or has a first fault.
pub fn has_an_outcome()
    ensures { (own : Bool) (m : ModuleValue) → IsSoundModule m → (result : Result Named ElabFault) × IsOutcome own m result }
{}

/// A module denotes one named netlist or has one first fault at most.
pub fn one_outcome()
    ensures { (own : Bool) (m : ModuleValue) (a b : Result Named ElabFault) → IsOutcome own m a → IsOutcome own m b → a ≡ b }
{}

/// In every cycle of the netlist that a text denotes, and the one behind it, each statement of the text holds of the bits that the nets
/// have by their names. The netlist lacks the clock's nets: all of them have one bit in the cycle, be it 0 or 1.
pub fn netlists_mean()
    ensures { (own : Bool) (f : FileTree) (v next : Bits) (clock : Bool) → IsSoundModule (module_of f) → first_fault own (module_of f) ≡ None
        → AllByRecursion (Meets v) (design_of (denoted (module_of f))).netlist.gates → AllByRecursion (λ (k : Flop Bit). next k.q ≡ v k.d) (design_of (denoted (module_of f))).netlist.flops
        → ((net : ℕ) → is_clock (work_in (module_of f)) net ≡ true → v (bit_text (variables_in (module_of f)) net) ≡ clock)
        → AllByRecursion (StatementHolds (reference_bits (variables (module_of f)) v) (reference_bits (variables (module_of f)) next)) f.statements }
{}
