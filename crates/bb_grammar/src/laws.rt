//! What readers may rely on: the first bad token, and one module for each whole list of tokens.

ghost use Rattle.std.specs.Prelude.{◌≡◌, ◌⊎◌, ◌↔◌, ℕ, List, ◌∷◌, ◌++◌, Ok, Err};
ghost use Rattle.bb_base.specs.declared.token.Token.{Token as TokenValue};
ghost use Rattle.bb_parse.specs.declared.syntax.Module.{Module as ModuleValue};
ghost use Rattle.bb_parse.specs.declared.fault.ParseFault.{ParseFault as FaultValue};
ghost use Rattle.bb_parse.specs.declared.fault.ParseFault.TheVariants.{Unreadable};
ghost use Rattle.std.specs.List.{AllByRecursion};
ghost use Rattle.bb_parse.specs.Meaning.{Denotes, IsFront, IsFirstBad, HasFirstBad};
ghost use Rattle.bb_base.specs.Tokens.{IsProper};
ghost use Rattle.bb_parse.specs.Sound.{IsSoundModule};
ghost use Rattle.bb_parse.specs.Machine.{Parsing, Failed, run, start, end, Rejects};
ghost use Rattle.bb_grammar.specs.Texts.{IsModuleOf, HasLexFault, HasParseFault};
ghost use Rattle.bb_base.specs.declared.lex_fault.LexFault.{LexFault as LexValue};

use bb_lex::one_reading;

/// A whole run and its end give a module exactly where the tokens denote it, and they denote one at most.
pub fn one_module()
    ensures exact { (tokens : List TokenValue) (value : ModuleValue) (line : ℕ) → Denotes tokens value ↔ (end (run start tokens) line ≡ Ok value) }
    ensures one { (tokens : List TokenValue) (value other : ModuleValue) → Denotes tokens value → Denotes tokens other → value ≡ other }
{}

/// A run refuses a token exactly where it is the first with which no tokens make a whole module, and its fault stands.
pub fn first_bad_token()
    ensures refused { (front : List TokenValue) (token : TokenValue) → IsFirstBad front token ↔ Rejects (run start front) token }
    ensures stands { (front rest : List TokenValue) (token : TokenValue) → IsFirstBad front token → run start (front ++ token ∷ rest) ≡ Failed (Unreadable token.line) }
    ensures any { (tokens : List TokenValue) → IsFront tokens ⊎ HasFirstBad tokens }
{}

/// The end is refused exactly where the tokens go on to a whole module and are none.
pub fn cut_short()
    ensures { (tokens : List TokenValue) (line : ℕ) → IsFront tokens → ((value : ModuleValue) → ¬ Denotes tokens value) ↔ (end (run start tokens) line ≡ Err (Unreadable line)) }
{}

/// Tokens may be fed in any parts, and a fault stands.
pub fn in_parts()
    ensures parts { (p : Parsing) (tokens more : List TokenValue) → run p (tokens ++ more) ≡ run (run p tokens) more }
    ensures fault { (fault : FaultValue) (tokens : List TokenValue) → run (Failed fault) tokens ≡ Failed fault }
{}

/// Where each token is one that a text may have, the module has names for names, and its numbers are in their ranges.
pub fn in_range()
    ensures { (tokens : List TokenValue) (value : ModuleValue) → AllByRecursion IsProper tokens → Denotes tokens value → IsSoundModule value }
{}

/// Each text is a module's or has a first flaw, not both, and has one first flaw at most.
pub fn one_flaw()
    ensures some { (text : List ℕ) → ((m : ModuleValue) × IsModuleOf m text) ⊎ ((fault : LexValue) × HasLexFault text fault) ⊎ ((fault : FaultValue) × HasParseFault text fault) }
    ensures no_lex_fault { (text : List ℕ) (m : ModuleValue) (fault : LexValue) → IsModuleOf m text → HasLexFault text fault → ⊥ }
    ensures no_parse_fault { (text : List ℕ) (m : ModuleValue) (fault : FaultValue) → IsModuleOf m text → HasParseFault text fault → ⊥ }
    ensures one_lex_fault { (text : List ℕ) (a b : LexValue) → HasLexFault text a → HasLexFault text b → a ≡ b }
    ensures one_parse_fault { (text : List ℕ) (a b : FaultValue) → HasParseFault text a → HasParseFault text b → a ≡ b }
    ensures not_both { (text : List ℕ) (a : LexValue) (b : FaultValue) → HasLexFault text a → HasParseFault text b → ⊥ }
{
    one_reading();
}
