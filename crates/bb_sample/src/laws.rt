//! Laws about samples, as contracts of functions without a body.

ghost use Rattle.std.specs.Prelude.{◌≡◌, ◌≤◌, ◌++◌, ℕ, false, All, map};
ghost use Rattle.std.specs.List.{range_with_len};
ghost use Rattle.bb_base.specs.OwnNames.{is_reserved};
ghost use Rattle.bb_base.specs.Variables.{bit_count};
ghost use Rattle.bb_base.specs.Order.{HasOrder};
ghost use Rattle.bb_base.specs.Named.{IsNamed, IsByBits};
ghost use Rattle.bb_sample.specs.Draws.{generator_after, draw};
ghost use Rattle.bb_sample.specs.Sample.{input_count, flop_count, state_net, gate_net, pool_size, pool_net, sample_of};

/// Each sample is a named netlist with an order. Its names are no names of this project's own, and its bits are few enough for any text.
pub fn samples_are_netlists()
    ensures named { (number : ℕ) → 1 ≤ number → number ≤ 65536 → IsNamed (sample_of number) }
    ensures by_bits { (number : ℕ) → IsByBits (sample_of number) }
    ensures order { (number : ℕ) → 1 ≤ number → number ≤ 65536 → HasOrder (sample_of number).netlist.gates }
    ensures own { (number : ℕ) → All (λ v. is_reserved v.0 ≡ false) (sample_of number).variables }
    ensures few { (number : ℕ) → number ≤ 65536 → bit_count (sample_of number).variables ≤ 2097152 }
{}

/// What gate `j` may read is the inputs, then the bits of all flip-flops, then the outputs of the gates before it.
pub fn pools_hold_what_came_before()
    ensures { (number j : ℕ) → map (pool_net number) (range_with_len 0 (pool_size number j))
        ≡ range_with_len 0 input_count ++ (map (state_net number) (range_with_len 0 (flop_count number)) ++ map (gate_net number) (range_with_len 0 j)) }
{}

/// The states and draws of the first sample's gate.
pub fn draws_are_known()
    ensures first { generator_after 1 1 ≡ 1103527590 }
    ensures second { generator_after 1 2 ≡ 2524885223 }
    ensures third { generator_after 1 3 ≡ 662824084 }
    ensures operator { draw 1 0 6 ≡ 2 }
    ensures first_input { draw 1 1 16 ≡ 0 }
    ensures second_input { draw 1 2 16 ≡ 4 }
{}
