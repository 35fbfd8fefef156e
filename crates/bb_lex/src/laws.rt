//! What readers may rely on: one outcome for each text, whatever the pieces.

ghost use Rattle.std.specs.Prelude.{◌≡◌, ◌↔◌, ℕ, List, ◌++◌, Result};
ghost use Rattle.bb_base.specs.declared.token.Token.{Token as TokenValue};
ghost use Rattle.bb_base.specs.declared.lex_fault.LexFault.{LexFault as FaultValue};
ghost use Rattle.bb_lex.specs.Machine.{Machine, Failed, run, start, close, Closes, after_tokens};
ghost use Rattle.bb_lex.specs.Ranges.{IsSound};
ghost use Rattle.bb_lex.specs.Text.{Denotes};

/// Each text has exactly one outcome, and a whole run and its end give it.
pub fn one_reading()
    ensures exact { (text : List ℕ) (tokens : List TokenValue) (end : Result ℕ FaultValue) → Denotes text tokens end ↔ Closes (run start text) tokens end }
    ensures one { (text : List ℕ) (tokens others : List TokenValue) (end other : Result ℕ FaultValue) → Denotes text tokens end → Denotes text others other → (tokens ≡ others) × (end ≡ other) }
    ensures some { (text : List ℕ) → (tokens : List TokenValue) × (end : Result ℕ FaultValue) × Denotes text tokens end }
{}

/// A text may be cut anywhere, and tokens may be taken out between its pieces.
pub fn any_cutting()
    ensures pieces { (m : Machine) (piece rest : List ℕ) → run m (piece ++ rest) ≡ run (run m piece) rest }
    ensures taken { (earlier : List TokenValue) (m : Machine) (bytes : List ℕ) → run (after_tokens earlier m) bytes ≡ after_tokens earlier (run m bytes) }
    ensures taken_at_end { (earlier : List TokenValue) (m : Machine) → close (after_tokens earlier m) ≡ after_tokens earlier (close m) }
{}

/// A fault stands, whatever comes after it.
pub fn a_fault_stands()
    ensures run { (m : Machine) (fault : FaultValue) (bytes : List ℕ) → m.now.mode ≡ Failed fault → run m bytes ≡ m }
    ensures close { (m : Machine) (fault : FaultValue) → m.now.mode ≡ Failed fault → close m ≡ m }
{}

/// Names in tokens are names and numbers are in their ranges, from the start of a text on.
pub fn in_range()
    ensures start { IsSound start }
    ensures run { (m : Machine) (bytes : List ℕ) → IsSound m → IsSound (run m bytes) }
    ensures close { (m : Machine) → IsSound m → IsSound (close m) }
{}
