//! Gates one after another.

ghost use Rattle.std.specs.Prelude.{◌≡◌, ◌<◌, ℕ, [], length, map, set, All};
ghost use Rattle.std.specs.List.{AllByRecursion};
ghost use Rattle.bb_base.specs.Booleans.{all_true, some_true, parity_of_bits};
ghost use Rattle.bb_base.specs.Operators.{first_bit, op_gives};
ghost use Rattle.bb_base.specs.Order.{drivers};
ghost use Rattle.bb_base.specs.Run.{Meets};
ghost use Rattle.bb_eqn.specs.Values.{bits_at};
ghost use Rattle.bb_eqn.specs.Sequence.{WriteFirst};

use bb_base::{Gate, NetId, Op};

/// Whether each of some nets is 1.
fn are_all(nets: &[NetId], values: &[bool]) -> bool
    requires { All (λ n. n < length values.now) nets.now }
    ensures { result ≡ all_true (map (bits_at values.now) nets.now) }
{
    for net in nets {
        if !values[net.0 as usize] {
            return false;
        }
    }
    true
}

/// Whether some of them is.
fn is_some(nets: &[NetId], values: &[bool]) -> bool
    requires { All (λ n. n < length values.now) nets.now }
    ensures { result ≡ some_true (map (bits_at values.now) nets.now) }
{
    for net in nets {
        if values[net.0 as usize] {
            return true;
        }
    }
    false
}

/// Whether an odd number of them is.
fn is_odd(nets: &[NetId], values: &[bool]) -> bool
    requires { All (λ n. n < length values.now) nets.now }
    ensures { result ≡ parity_of_bits (map (bits_at values.now) nets.now) }
{
    let mut odd = false;
    for net in nets {
        odd = odd != values[net.0 as usize];
    }
    odd
}

/// Whether the first of them is.
fn is_first(nets: &[NetId], values: &[bool]) -> bool
    requires { All (λ n. n < length values.now) nets.now }
    ensures { result ≡ first_bit (map (bits_at values.now) nets.now) }
{
    match nets.first() {
        Some(net) => values[net.0 as usize],
        None => false,
    }
}

/// The bit that a gate gives.
fn bit_of(gate: &Gate, values: &[bool]) -> bool
    requires { All (λ n. n < length values.now) gate.now.ins }
    ensures { result ≡ op_gives gate.now.op (map (bits_at values.now) gate.now.ins) }
{
    match gate.op {
        Op::And => are_all(&gate.ins, values),
        Op::Nand => !are_all(&gate.ins, values),
        Op::Or => is_some(&gate.ins, values),
        Op::Nor => !is_some(&gate.ins, values),
        Op::Xor => is_odd(&gate.ins, values),
        Op::Xnor => !is_odd(&gate.ins, values),
        Op::Not => !is_first(&gate.ins, values),
        Op::Buf => is_first(&gate.ins, values),
        Op::Zero => false,
        Op::One => true,
    }
}

/// Writes the bit that a gate gives.
pub(crate) fn write_gate(gate: &Gate, values: &mut [bool])
    requires drives { gate.now.out < length values.old }
    requires reads { All (λ n. n < length values.old) gate.now.ins }
    ensures { values.new ≡ set values.old gate.now.out (op_gives gate.now.op (map (bits_at values.old) gate.now.ins)) }
{
    let bit = bit_of(gate, values);
    values[gate.out.0 as usize] = bit;
}

/// Evaluates gates in this order. Bits of nets that none of them drives stay.
pub fn evaluate(gates: &[Gate], values: &mut [bool])
    requires drives { All (λ g. g.out < length values.old) gates.now }
    requires reads { All (λ g. All (λ n. n < length values.old) g.ins) gates.now }
    requires first { WriteFirst gates.now }
    ensures met { AllByRecursion (Meets (bits_at values.new)) gates.now }
    ensures kept { (net : ℕ) → drivers gates.now net ≡ [] → bits_at values.new net ≡ bits_at values.old net }
    ensures long { length values.new ≡ length values.old }
{
    for gate in gates {
        write_gate(gate, values);
    }
}
