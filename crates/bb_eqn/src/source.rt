//! The code bits of columns at 64 states.

ghost use Rattle.std.specs.Prelude.{◌≡◌, ◌<◌, ◌+◌, ◌*◌, ◌^◌, ℕ, Some, length, slice_get, slice_index};
ghost use Rattle.std.specs.Int.{bit_at};
ghost use Rattle.bb_base.specs.Parity.{code_bit, code_of_bits};
ghost use Rattle.bb_terms.specs.Register.{IsDegree, IsMask};
ghost use Rattle.bb_eqn.specs.Lanes.{lane, in_lane, state_on};

use bb_gf2::next;

/// Puts the bits of a state into a lane of the rows, a row a bit.
fn put_state(state: u32, place: u32, rows: &mut [u64; 32])
    requires place { place < 64 }
    requires fresh { (i : ℕ) → i < 32 → slice_index rows.old i < 2 ^ place }
    ensures { (i : ℕ) → i < 32 → slice_index rows.new i ≡ bit_at state i * 2 ^ place + slice_index rows.old i }
{
    for bit in 0..32u32 {
        rows[bit as usize] |= u64::from(state >> bit & 1) << place;
    }
}

/// The bits of 64 states, a row a bit and a lane a state, and the state behind them.
fn put_states(degree: u32, mask: u32, first: u32, rows: &mut [u64; 32]) -> u32
    requires degree { IsDegree degree }
    requires mask { IsMask degree mask }
    requires state { first < 2 ^ degree }
    requires fresh { (i : ℕ) → i < 32 → slice_index rows.old i ≡ 0 }
    ensures lanes { (i t : ℕ) → i < 32 → t < 64 → lane t (slice_index rows.new i) ≡ lane i (state_on degree mask t first) }
    ensures state { result ≡ state_on degree mask 64 first }
    ensures below { result < 2 ^ degree }
{
    let mut state = first;
    for place in 0..64u32 {
        put_state(state, place, rows);
        state = next(degree, mask, state);
    }
    state
}

/// The exclusive or of the rows at a column's ones.
fn column_word(column: u32, rows: &[u64; 32]) -> u64
    ensures { (t : ℕ) → t < 64 → lane t result ≡ code_of_bits column (in_lane t rows.now) }
{
    let mut left = column;
    let mut word = 0;
    for row in rows {
        if left % 2 == 1 {
            word ^= *row;
        }
        left /= 2;
    }
    word
}

/// Gives each column the word of its code bits at 64 states: in lane t at the state that is t steps after the first. Answers the state that
/// is 64 steps after it.
pub fn source_words(degree: u32, mask: u32, first: u32, columns: &[u32], words: &mut [u64]) -> u32
    requires degree { IsDegree degree }
    requires mask { IsMask degree mask }
    requires state { first < 2 ^ degree }
    requires long { length words.old ≡ length columns.now }
    ensures coded { (j t column : ℕ) → slice_get columns.now j ≡ Some column → t < 64 → lane t (slice_index words.new j) ≡ code_bit column (state_on degree mask t first) }
    ensures state { result ≡ state_on degree mask 64 first }
    ensures below { result < 2 ^ degree }
    ensures long { length words.new ≡ length words.old }
{
    let mut rows = [0; 32];
    let state = put_states(degree, mask, first, &mut rows);
    'columns: for (place, column) in columns.iter().enumerate() {
        words[place] = column_word(*column, &rows);
    }
    state
}
