//! The word that a gate gives.

ghost use Rattle.std.specs.Prelude.{◌≡◌, ◌<◌, ℕ, length, map, All};
ghost use Rattle.bb_base.specs.Booleans.{all_true, some_true, parity_of_bits};
ghost use Rattle.bb_base.specs.Operators.{first_bit, op_gives};
ghost use Rattle.bb_eqn.specs.Values.{bits_at};
ghost use Rattle.bb_eqn.specs.Lanes.{lane, in_lane};

use bb_base::{Gate, NetId, Op};

/// In which lanes each of some nets is 1.
fn all_of(nets: &[NetId], values: &[u64]) -> u64
    requires { All (λ n. n < length values.now) nets.now }
    ensures { (t : ℕ) → t < 64 → lane t result ≡ all_true (map (bits_at (in_lane t values.now)) nets.now) }
{
    let mut word = u64::MAX;
    for net in nets {
        word &= values[net.0 as usize];
    }
    word
}

/// In which lanes some of them is.
fn some_of(nets: &[NetId], values: &[u64]) -> u64
    requires { All (λ n. n < length values.now) nets.now }
    ensures { (t : ℕ) → t < 64 → lane t result ≡ some_true (map (bits_at (in_lane t values.now)) nets.now) }
{
    let mut word = 0;
    for net in nets {
        word |= values[net.0 as usize];
    }
    word
}

/// In which lanes an odd number of them is.
fn odd_of(nets: &[NetId], values: &[u64]) -> u64
    requires { All (λ n. n < length values.now) nets.now }
    ensures { (t : ℕ) → t < 64 → lane t result ≡ parity_of_bits (map (bits_at (in_lane t values.now)) nets.now) }
{
    let mut word = 0;
    for net in nets {
        word ^= values[net.0 as usize];
    }
    word
}

/// In which lanes the first of them is.
fn first_of(nets: &[NetId], values: &[u64]) -> u64
    requires { All (λ n. n < length values.now) nets.now }
    ensures { (t : ℕ) → t < 64 → lane t result ≡ first_bit (map (bits_at (in_lane t values.now)) nets.now) }
{
    match nets.first() {
        Some(net) => values[net.0 as usize],
        None => 0,
    }
}

/// What a gate gives in each lane.
pub fn gate_word(gate: &Gate, values: &[u64]) -> u64
    requires { All (λ n. n < length values.now) gate.now.ins }
    ensures { (t : ℕ) → t < 64 → lane t result ≡ op_gives gate.now.op (map (bits_at (in_lane t values.now)) gate.now.ins) }
{
    match gate.op {
        Op::And => all_of(&gate.ins, values),
        Op::Nand => !all_of(&gate.ins, values),
        Op::Or => some_of(&gate.ins, values),
        Op::Nor => !some_of(&gate.ins, values),
        Op::Xor => odd_of(&gate.ins, values),
        Op::Xnor => !odd_of(&gate.ins, values),
        Op::Not => !first_of(&gate.ins, values),
        Op::Buf => first_of(&gate.ins, values),
        Op::Zero => 0,
        Op::One => u64::MAX,
    }
}
