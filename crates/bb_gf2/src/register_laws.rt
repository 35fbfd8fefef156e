// Laws of the definitions, as contracts of functions that do nothing.

ghost use Rattle.std.specs.Prelude.{◌≡◌, ◌<◌, ◌≤◌, ◌^◌, ◌+◌, ◌==◌, ◌++◌, ◌∷◌, [], suc, ℕ, List, Bool, length, slice_index};
ghost use Rattle.std.specs.List.{AllByRecursion};
ghost use Rattle.bb_base.specs.Bits.{bits};
ghost use Rattle.bb_base.specs.Parity.{code_word};
ghost use Rattle.bb_base.specs.Dual.{AreDuals};
ghost use Rattle.bb_terms.specs.Register.{IsMask, IsFullPeriod, next_state, state_after};
ghost use Rattle.bb_terms.specs.Walk.{IsFirstReturn};
ghost use Rattle.bb_terms.specs.OnBits.{next_bits, bits_after, at_last};
ghost use Rattle.bb_terms.specs.Signature.{signature_step, signature, next_signature, xor_each, xor_cycles};

/// A walk is full exactly where it first returns to 0 after 2^degree steps, and no two states have
/// one next state.
pub fn full_walks_return()
    ensures returns { (degree mask : ℕ) → 1 ≤ degree → IsMask degree mask → IsFullPeriod degree mask
        → IsFirstReturn degree mask (2 ^ degree) }
    ensures full { (degree mask : ℕ) → 1 ≤ degree → IsMask degree mask
        → IsFirstReturn degree mask (2 ^ degree) → IsFullPeriod degree mask }
    ensures first { (degree mask a b : ℕ) → IsFirstReturn degree mask a → IsFirstReturn degree mask b → a ≡ b }
    ensures one_to_one { (degree mask x y : ℕ) → 1 ≤ degree → IsMask degree mask → x < 2 ^ degree → y < 2 ^ degree
        → next_state degree mask x ≡ next_state degree mask y → x ≡ y }
{}

/// Where columns have duals, each vector of code bits comes at a step of a full walk.
pub fn every_vector_comes()
    ensures { (degree mask : ℕ) (columns duals : List ℕ) (wanted : List Bool) → IsFullPeriod degree mask
        → AreDuals columns duals → ((place : ℕ) → place < length duals → slice_index duals place < 2 ^ degree)
        → length wanted ≡ length columns
        → (t : ℕ) × (t < 2 ^ degree) × (code_word columns (state_after degree mask t) ≡ wanted) }
{}

/// The last state of a full walk, right before it is back at 0, is the one with a 1 in the last place
/// alone; and then the walk goes round.
pub fn ends_last()
    ensures last { (k mask t : ℕ) → 1 ≤ k → IsMask k mask → IsFullPeriod k mask → t < 2 ^ k
        → at_last (bits_after k mask t) ≡ (suc t == 2 ^ k) }
    ensures round { (k mask t : ℕ) → 1 ≤ k → IsMask k mask → IsFullPeriod k mask
        → bits_after k mask (2 ^ k + t) ≡ bits_after k mask t }
{}

/// The registers on numbers are those on lists of bits, lowest first.
pub fn registers_on_bits()
    ensures next { (k mask x : ℕ) → 1 ≤ k → x < 2 ^ k → bits k (next_state k mask x) ≡ next_bits mask (bits k x) }
    ensures states { (k mask t : ℕ) → 1 ≤ k → bits k (state_after k mask t) ≡ bits_after k mask t }
    ensures full { (k mask : ℕ) → 1 ≤ k → IsFullPeriod k mask → (xs : List Bool) → length xs ≡ k
        → (t : ℕ) × (t < 2 ^ k) × (bits_after k mask t ≡ xs) }
    ensures signature { (k mask cells lines : ℕ) → cells < 2 ^ k → lines < 2 ^ k
        → bits k (next_signature k mask cells lines) ≡ signature_step mask (bits k cells) (bits k lines) }
{}

/// One more cycle is one more step of the signature.
pub fn signature_grows()
    ensures { (k mask : ℕ) (cycles : List (List Bool)) (lines : List Bool)
        → signature k mask (cycles ++ lines ∷ []) ≡ signature_step mask (signature k mask cycles) lines }
{}

/// A signature is as long as its register where each cycle has a line for each cell, and so is what a
/// step makes; each state of a walk is as long as its register.
pub fn keeps_length()
    ensures state { (k mask t : ℕ) → length (bits_after k mask t) ≡ k }
    ensures signature { (k mask : ℕ) (cycles : List (List Bool)) → AllByRecursion (λ lines. length lines ≡ k) cycles
        → length (signature k mask cycles) ≡ k }
    ensures step { (k mask : ℕ) (cells lines : List Bool) → length cells ≡ k → length lines ≡ k
        → length (signature_step mask cells lines) ≡ k }
{}

/// The signature is linear: that of the exclusive or of two registers' lines is the exclusive or of
/// their signatures.
pub fn signatures_are_linear()
    ensures { (k mask : ℕ) (xs ys : List (List Bool)) → length xs ≡ length ys
        → AllByRecursion (λ lines. length lines ≡ k) xs → AllByRecursion (λ lines. length lines ≡ k) ys
        → signature k mask (xor_cycles xs ys) ≡ xor_each (signature k mask xs) (signature k mask ys) }
{}
