//! The bits of all nets at 64 states.

ghost use Rattle.std.specs.Prelude.{◌≡◌, ◌<◌, ◌^◌, ℕ, Some, length, slice_get, slice_index, All, Contains};
ghost use Rattle.bb_terms.specs.Register.{IsDegree, IsMask};
ghost use Rattle.bb_eqn.specs.Values.{bits_at};
ghost use Rattle.bb_eqn.specs.Lanes.{in_lane, state_on};
ghost use Rattle.bb_sign.specs.Evaluation.{CanBeEvaluated, AreGivenBits};

use crate::evaluation::Evaluation;
use bb_eqn::{eval, source_words};

/// Puts words at their nets.
fn put_words(nets: &[u32], words: &[u64], values: &mut [u64])
    requires long { length words.now ≡ length nets.now }
    requires within { All (λ net. net < length values.old) nets.now }
    ensures put { (net : ℕ) → Contains nets.now net → (j : ℕ) × (slice_get nets.now j ≡ Some net) × (slice_index values.new net ≡ slice_index words.now j) }
    ensures long { length values.new ≡ length values.old }
{
    'nets: for (place, net) in nets.iter().enumerate() {
        values[*net as usize] = words[place];
    }
}

/// Fills the bits of all nets, in lane t those at the state that is t steps after the first. Answers the state that is 64 steps after it.
/// What `words` and `values` held doesn't matter.
pub(crate) fn fill_bits(
    degree: u32,
    mask: u32,
    first: u32,
    evaluation: &Evaluation,
    words: &mut [u64],
    values: &mut [u64],
) -> u32
    requires degree { IsDegree degree }
    requires mask { IsMask degree mask }
    requires state { first < 2 ^ degree }
    requires ready { CanBeEvaluated (length values.old) evaluation.now }
    requires words { length words.old ≡ length evaluation.now.nets }
    ensures bits { (t : ℕ) → t < 64 → AreGivenBits evaluation.now (state_on degree mask t first) (bits_at (in_lane t values.new)) }
    ensures state { result ≡ state_on degree mask 64 first }
    ensures below { result < 2 ^ degree }
    ensures words { length words.new ≡ length words.old }
    ensures long { length values.new ≡ length values.old }
{
    let state = source_words(degree, mask, first, &evaluation.columns, words);
    put_words(&evaluation.nets, words, values);
    eval(&evaluation.gates, values);
    state
}
