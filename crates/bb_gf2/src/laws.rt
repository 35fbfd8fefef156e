// Laws of the definitions, as contracts of functions that do nothing.

ghost use Rattle.std.specs.Prelude.{◌≡◌, ◌<◌, ◌^◌, ℕ, List, Bool, length, bit_and, bit_xor, slice_index};
ghost use Rattle.bb_base.specs.Booleans.{xor, parity_of_bits};
ghost use Rattle.bb_base.specs.Bits.{bits, from_bits};
ghost use Rattle.bb_base.specs.Parity.{parity, code_bit, code_of_bits, code_word};
ghost use Rattle.bb_base.specs.Span.{combined, IsIndependent};
ghost use Rattle.bb_base.specs.Dual.{AreDuals, AreLeastDuals};

/// Independent rows have duals, and the exclusive or of the duals that a vector chooses is a state
/// with that vector as its code bits.
pub fn any_vector()
    ensures independent { (rows : List ℕ) → IsIndependent rows → (duals : List ℕ) × AreLeastDuals rows duals }
    ensures least { (rows duals : List ℕ) → AreLeastDuals rows duals → AreDuals rows duals }
    ensures dual { (rows duals : List ℕ) → AreDuals rows duals → IsIndependent rows }
    ensures state { (rows duals : List ℕ) (wanted : List Bool) → AreDuals rows duals → length wanted ≡ length rows
        → code_word rows (combined (from_bits wanted) duals) ≡ wanted }
    ensures below { (k : ℕ) (rows duals : List ℕ) → AreLeastDuals rows duals
        → ((place : ℕ) → place < length rows → slice_index rows place < 2 ^ k)
        → (place : ℕ) → place < length rows → slice_index duals place < 2 ^ k }
    ensures state_below { (k : ℕ) (wanted : List Bool) (duals : List ℕ)
        → ((place : ℕ) → place < length duals → slice_index duals place < 2 ^ k)
        → combined (from_bits wanted) duals < 2 ^ k }
{}

/// Code bits on numbers are those on lists of bits, lowest first, and they are linear.
pub fn bits_agree()
    ensures value { (k x : ℕ) → x < 2 ^ k → from_bits (bits k x) ≡ x }
    ensures bits { (bs : List Bool) → bits (length bs) (from_bits bs) ≡ bs }
    ensures parity { (k x : ℕ) → x < 2 ^ k → parity_of_bits (bits k x) ≡ parity x }
    ensures code { (k column x : ℕ) → x < 2 ^ k → code_of_bits column (bits k x) ≡ code_bit column x }
    ensures linear { (column x y : ℕ) → code_bit column (bit_xor x y) ≡ xor (code_bit column x) (code_bit column y) }
{}
