//! Gates one after another, in all lanes at once.

ghost use Rattle.std.specs.Prelude.{◌≡◌, ◌<◌, ℕ, [], length, map, set, All};
ghost use Rattle.std.specs.List.{AllByRecursion};
ghost use Rattle.bb_base.specs.Operators.{op_gives};
ghost use Rattle.bb_base.specs.Order.{drivers};
ghost use Rattle.bb_base.specs.Run.{Meets};
ghost use Rattle.bb_eqn.specs.Values.{bits_at};
ghost use Rattle.bb_eqn.specs.Sequence.{WriteFirst};
ghost use Rattle.bb_eqn.specs.Lanes.{in_lane};

use crate::lanes::gate_word;
use bb_base::Gate;

/// Writes the word that a gate gives.
fn write_gate(gate: &Gate, values: &mut [u64])
    requires drives { gate.now.out < length values.old }
    requires reads { All (λ n. n < length values.old) gate.now.ins }
    ensures lanes { (t : ℕ) → t < 64 → in_lane t values.new ≡ set (in_lane t values.old) gate.now.out (op_gives gate.now.op (map (bits_at (in_lane t values.old)) gate.now.ins)) }
    ensures long { length values.new ≡ length values.old }
{
    let word = gate_word(gate, values);
    values[gate.out.0 as usize] = word;
}

/// Evaluates gates in this order. Words of nets that none of them drives stay.
pub fn eval(gates: &[Gate], values: &mut [u64])
    requires drives { All (λ g. g.out < length values.old) gates.now }
    requires reads { All (λ g. All (λ n. n < length values.old) g.ins) gates.now }
    requires first { WriteFirst gates.now }
    ensures met { (t : ℕ) → t < 64 → AllByRecursion (Meets (bits_at (in_lane t values.new))) gates.now }
    ensures kept { (t net : ℕ) → t < 64 → drivers gates.now net ≡ [] → bits_at (in_lane t values.new) net ≡ bits_at (in_lane t values.old) net }
    ensures long { length values.new ≡ length values.old }
{
    for gate in gates {
        write_gate(gate, values);
    }
}
