//! Variables of the written netlist, and bits of them that are nets.

ghost use Rattle.std.specs.Prelude.{◌≡◌, ◌≢◌, ◌<◌, ◌≤◌, ◌+◌, ◌^◌, ◌++◌, ◌∷◌, [], ℕ, All, AllPairs, IfOk, OnOk, Some, None, length, map, slice_get, codes, decimal};
ghost use Rattle.std.specs.Option.{ForSome};
ghost use Rattle.bb_base.specs.Variables.{IsBit, bit_at};
ghost use Rattle.bb_base.specs.Building.{MayClock, with_variable, net_limit, IsEarlier};
ghost use Rattle.bb_lay.specs.Laying.{CanStand, IsLaid, with_bits};

use bb_base::{Name, NetFault, Variable};
use bb_net::Builder;
use std::alloc::{AllocError, Global};

/// Want of memory, where a builder's fault is that.
pub(crate) fn only_memory(fault: NetFault) -> AllocError
    requires { fault ≡ NetFault.NoMemory }
{
    AllocError
}

/// AddsAll a variable, whose name is new, and answers its number.
pub(crate) fn declare(
    builder: &mut Builder,
    name: Name,
    variable: Variable,
    clock: Option<u32>,
) -> Result<u32, AllocError>
    requires laid { IsLaid builder.old }
    requires stand { CanStand (builder.old.variables ++ (name, variable) ∷ []) }
    requires clock { ForSome clock (MayClock builder.old variable) }
    ensures added { OnOk result (builder.new ≡ with_variable builder.old name variable clock) }
    ensures number { IfOk result (λ number. number ≡ length builder.old.variables) }
{
    match builder.variable(name, variable.range, variable.role, clock) {
        Ok(number) => Ok(number),
        // The name is new, and there is room for the nets.
        Err(fault) => Err(only_memory(fault)),
    }
}

/// Makes the net of a bit of the last variable.
pub(crate) fn add_bit(builder: &mut Builder, number: u32, place: u32) -> Result<(), AllocError>
    requires bit { IsBit builder.old.variables (bit_at number place) }
    requires no_clock { ForSome builder.old.clock (λ c. c.variable < number) }
    requires earlier { All (IsEarlier number place) builder.old.names }
    requires room { length builder.old.names < net_limit }
    ensures { OnOk result (builder.new ≡ with_bits builder.old (bit_at number place ∷ [])) }
{
    match builder.net(number, place) {
        Ok(_) => Ok(()),
        // There are no more nets than bits so far.
        Err(fault) => Err(only_memory(fault)),
    }
}
