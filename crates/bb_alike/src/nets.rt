//! The nets of one netlist at the sites of another's.

ghost use Rattle.std.specs.Prelude.{◌≡◌, ◌<◌, ◌-◌, ◌^◌, map, length, IfOk, Some, slice_get};
ghost use Rattle.bb_base.specs.Variables.{Entry};
ghost use Rattle.bb_base.specs.Named.{lookup_of};
ghost use Rattle.bb_net.specs.Sites.{site_of};
ghost use Rattle.bb_alike.specs.Found.{IsNetAt, AreNetsAt};

use bb_base::{BitName, NetId};
use bb_net::Named;
use std::alloc::{AllocError, Global};

/// The number of the variable with the name of another netlist's variable.
fn same_variable(of: &Named, within: &Named, number: u32) -> Option<u32>
    requires { number < length of.now.variables }
    ensures { (v : Entry) → slice_get of.now.variables number ≡ Some v → result ≡ lookup_of v.0 within.now }
{
    let (name, _) = of.variable(number);
    within.lookup(name)
}

/// For each variable of one netlist the number of the variable with its name in another.
fn same_variables(alloc: Global, of: &Named, within: &Named) -> Result<Vec<Option<u32>>, AllocError>
    ensures { IfOk result (λ numbers. numbers.items ≡ map (λ v. lookup_of v.0 within.now) of.now.variables) }
{
    let mut numbers = Vec::new(alloc);
    for number in 0..of.variables() {
        numbers.push(same_variable(of, within, number))?;
    }
    Ok(numbers)
}

fn number_at(numbers: &[Option<u32>], variable: u32) -> Option<u32>
    requires { variable < length numbers.now }
    ensures { slice_get numbers.now variable ≡ Some result }
{
    numbers[variable as usize]
}

/// The net at the site of another netlist's net, where the numbers of that one's variables are at hand.
fn net_at(numbers: &[Option<u32>], of: &Named, within: &Named, net: NetId) -> Option<NetId>
    requires net { net < length of.now.names }
    requires numbers { numbers.now ≡ map (λ v. lookup_of v.0 within.now) of.now.variables }
    ensures { IsNetAt within.now (site_of of.now net) result }
{
    // `netlist` ensures that this is a named netlist.
    let _within = within.netlist();
    let bit = of.name(net);
    match number_at(numbers, bit.variable) {
        Some(variable) => within.find(BitName {
            variable,
            place: bit.place,
        }),
        None => None,
    }
}

/// How many nets there are.
pub(crate) fn net_count(named: &Named) -> u32
    ensures count { result ≡ length named.now.names }
    ensures few { result < 2 ^ 32 - 1 }
{
    named.netlist().nets()
}

/// For each net of one netlist the net at its site in another.
pub(crate) fn same_nets(
    alloc: Global,
    of: &Named,
    within: &Named,
) -> Result<Vec<Option<NetId>>, AllocError>
    ensures { IfOk result (λ nets. AreNetsAt of.now within.now nets.items) }
{
    let numbers = same_variables(alloc, of, within)?;
    let mut nets = Vec::new(alloc);
    for net in 0..net_count(of) {
        nets.push(net_at(&numbers, of, within, NetId(net)))?;
    }
    Ok(nets)
}
