//! The gates and flip-flops of a sample.

ghost use Rattle.std.specs.Prelude.{◌≡◌, ◌+◌, ◌*◌, ◌<◌, ◌≤◌, ◌^◌, ◌-◌, ◌∷◌, [], All, OnOk, length, map};
ghost use Rattle.std.specs.List.{range_with_len};
ghost use Rattle.bb_base.specs.Operators.{IsArity};
ghost use Rattle.bb_base.specs.Building.{with_gate, with_gates, with_flops};
ghost use Rattle.bb_sample.specs.Draws.{generator_step, generator_after, drawn};
ghost use Rattle.bb_sample.specs.Sample.{output_count, flop_count, net_count, gate_net, pool_size, pool_net, operator_of, gate_at, buffer_at, flop_at};

use crate::draws::Draws;
use crate::nets::{
    flop_count, gate_net, operator_of, output_count, output_net, pool_net, pool_size, state_net,
};
use crate::ports::out_of_memory;
use bb_base::{NetId, Op};
use bb_net::Builder;
use std::alloc::AllocError;

/// Draws an operator.
fn draw_operator(draws: &mut Draws) -> Op
    ensures operator { result ≡ operator_of (drawn draws.new 6) }
    ensures state { draws.new ≡ generator_step draws.old }
    ensures arity { IsArity result 2 }
{
    operator_of(draws.below(6))
}

/// Draws a net that gate `j` may read.
fn draw_input(draws: &mut Draws, number: u32, j: u32) -> NetId
    requires few { number ≤ 65536 }
    requires within { j < number }
    ensures net { result ≡ pool_net number (drawn draws.new (pool_size number j)) }
    ensures state { draws.new ≡ generator_step draws.old }
    ensures stands { result < net_count number }
{
    let place = draws.below(pool_size(number, j));
    pool_net(number, place)
}

/// Adds a gate that takes so many inputs.
fn push_gate(builder: &mut Builder, op: Op, out: NetId, ins: &[NetId]) -> Result<(), AllocError>
    requires out { out < length builder.old.names }
    requires ins { All (λ net. net < length builder.old.names) ins.now }
    requires few { length builder.old.netlist.gates < 2 ^ 32 - 1 }
    requires arity { IsArity op (length ins.now) }
    ensures { OnOk result (builder.new ≡ with_gate builder.old op out ins.now) }
{
    match builder.gate(op, out, ins) {
        Ok(()) => Ok(()),
        // The operator takes so many inputs.
        Err(fault) => Err(out_of_memory(fault)),
    }
}

/// Draws gate `j`, and adds it.
fn add_gate(builder: &mut Builder, draws: &mut Draws, number: u32, j: u32) -> Result<(), AllocError>
    requires few { number ≤ 65536 }
    requires within { j < number }
    requires nets { length builder.old.names ≡ net_count number }
    requires gates { length builder.old.netlist.gates < 2 ^ 32 - 1 }
    requires state { draws.old ≡ generator_after number (3 * j) }
    ensures added { OnOk result (builder.new ≡ with_gates builder.old (gate_at number j ∷ [])) }
    ensures state { OnOk result (draws.new ≡ generator_after number (3 * (j + 1))) }
{
    let op = draw_operator(draws);
    let first = draw_input(draws, number, j);
    let second = draw_input(draws, number, j);
    push_gate(builder, op, gate_net(number, j), &[first, second])?;
    Ok(())
}

/// Draws the gates, and adds them.
///
/// After an error some of them may stand.
pub(crate) fn add_gates(
    builder: &mut Builder,
    draws: &mut Draws,
    number: u32,
) -> Result<(), AllocError>
    requires few { number ≤ 65536 }
    requires nets { length builder.old.names ≡ net_count number }
    requires gates { length builder.old.netlist.gates ≡ 0 }
    requires state { draws.old ≡ generator_after number 0 }
    ensures added { OnOk result (builder.new ≡ with_gates builder.old (map (gate_at number) (range_with_len 0 number))) }
    ensures state { OnOk result (draws.new ≡ generator_after number (3 * number)) }
{
    'gates: for j in 0..number {
        add_gate(builder, draws, number, j)?;
    }
    Ok(())
}

/// Adds the gates of the outputs.
///
/// After an error some of them may stand.
pub(crate) fn add_buffers(builder: &mut Builder, number: u32) -> Result<(), AllocError>
    requires few { number ≤ 65536 }
    requires nets { length builder.old.names ≡ net_count number }
    requires gates { length builder.old.netlist.gates ≤ 65536 }
    ensures { OnOk result (builder.new ≡ with_gates builder.old (map (buffer_at number) (range_with_len 0 (output_count number)))) }
{
    'outputs: for j in 0..output_count(number) {
        let read = gate_net(number, number - 1 - j);
        push_gate(builder, Op::Buf, output_net(j), &[read])?;
    }
    Ok(())
}

/// Draws a gate's output.
fn draw_gate(draws: &mut Draws, number: u32) -> NetId
    requires some { 1 ≤ number }
    requires few { number ≤ 65536 }
    ensures net { result ≡ gate_net number (drawn draws.new number) }
    ensures state { draws.new ≡ generator_step draws.old }
    ensures stands { result < net_count number }
{
    let place = draws.below(number);
    gate_net(number, place)
}

/// Draws what each flip-flop takes, and adds them.
///
/// After an error some of them may stand.
pub(crate) fn add_flops(
    builder: &mut Builder,
    draws: &mut Draws,
    number: u32,
) -> Result<(), AllocError>
    requires some { 1 ≤ number }
    requires few { number ≤ 65536 }
    requires nets { length builder.old.names ≡ net_count number }
    requires flops { length builder.old.netlist.flops ≡ 0 }
    requires state { draws.old ≡ generator_after number (3 * number) }
    ensures { OnOk result (builder.new ≡ with_flops builder.old (map (flop_at number) (range_with_len 0 (flop_count number)))) }
{
    'flops: for i in 0..flop_count(number) {
        let d = draw_gate(draws, number);
        builder.flop(state_net(number, i), d)?;
    }
    Ok(())
}
