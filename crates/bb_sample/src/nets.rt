//! How many there are of each, and the numbers of nets.

ghost use Rattle.std.specs.Prelude.{◌≡◌, ◌+◌, ◌<◌, ◌≤◌};
ghost use Rattle.bb_base.specs.Operators.{IsArity};
ghost use Rattle.bb_sample.specs.Sample.{input_count, output_count, flop_count, is_clocked, net_count, output_net, state_net, gate_net, pool_size, pool_net, operator_of};

use bb_base::{NetId, Op};

/// How many inputs there are beside the clock.
#[tactic(auto, unfolding(crate::specs::Sample::input_count))]
pub(crate) fn input_count() -> u32
    ensures count { result ≡ input_count }
    ensures value { result ≡ 16 }
{
    16
}

/// How many outputs.
pub(crate) fn output_count(number: u32) -> u32
    ensures count { result ≡ output_count number }
    ensures few { result ≤ 8 }
{
    number.min(8)
}

/// How many flip-flops.
pub(crate) fn flop_count(number: u32) -> u32
    ensures count { result ≡ flop_count number }
    ensures few { result ≤ number }
{
    number / 16
}

/// Whether there is a clock.
pub(crate) fn is_clocked(number: u32) -> bool
    ensures { result ≡ is_clocked number }
{
    flop_count(number) > 0
}

/// The net of an output, by its place from the left.
pub(crate) fn output_net(place: u32) -> NetId
    requires { place < 8 }
    ensures { result ≡ output_net place }
{
    NetId(input_count() + place)
}

/// The net of a flip-flop's bit.
pub(crate) fn state_net(number: u32, place: u32) -> NetId
    requires { place ≤ 65536 }
    ensures { result ≡ state_net number place }
{
    NetId(input_count() + output_count(number) + place)
}

/// The net of a gate's output.
pub(crate) fn gate_net(number: u32, place: u32) -> NetId
    requires few { number ≤ 65536 }
    requires within { place ≤ 65536 }
    ensures { result ≡ gate_net number place }
{
    NetId(input_count() + output_count(number) + flop_count(number) + place)
}

/// How many nets gate `j` may read.
pub(crate) fn pool_size(number: u32, j: u32) -> u32
    requires few { number ≤ 65536 }
    requires within { j < number }
    ensures size { result ≡ pool_size number j }
    ensures some { 0 < result }
{
    input_count() + flop_count(number) + j
}

/// The net of a place among them.
pub(crate) fn pool_net(number: u32, place: u32) -> NetId
    requires few { number ≤ 65536 }
    requires within { place < input_count + flop_count number + number }
    ensures net { result ≡ pool_net number place }
    ensures stands { result < net_count number }
{
    if place < input_count() {
        return NetId(place);
    }
    NetId(place + output_count(number))
}

/// The operator of a number that was drawn.
pub(crate) fn operator_of(number: u32) -> Op
    requires { number < 6 }
    ensures operator { result ≡ operator_of number }
    ensures arity { IsArity result 2 }
{
    match number {
        0 => Op::And,
        1 => Op::Nand,
        2 => Op::Or,
        3 => Op::Nor,
        4 => Op::Xor,
        _ => Op::Xnor,
    }
}
