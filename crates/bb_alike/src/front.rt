//! What a netlist shows to the outside: its module's name, its ports and its clock.

ghost use Rattle.std.specs.Prelude.{◌≡◌, ◌↔◌, ◌<◌, take, length, slice_get, IsTrue};
ghost use Rattle.bb_base.specs.Variables.{ports_of};
ghost use Rattle.bb_alike.specs.Alike.{HasFrontOf};

use bb_net::Named;

/// Whether a variable of both is the same, by name, range and role.
fn is_same_variable(woven: &Named, written: &Named, number: u32) -> bool
    requires woven { number < length woven.now.variables }
    requires written { number < length written.now.variables }
    ensures { IsTrue result ↔ (slice_get written.now.variables number ≡ slice_get woven.now.variables number) }
{
    let (name, variable) = woven.variable(number);
    let (other_name, other) = written.variable(number);
    name.bytes() == other_name.bytes() && variable == other
}

/// Whether both have the same ports.
fn has_ports(woven: &Named, written: &Named) -> bool
    ensures { IsTrue result ↔ (take (ports_of written.now.variables) written.now.variables ≡ take (ports_of woven.now.variables) woven.now.variables) }
{
    if woven.ports() != written.ports() {
        return false;
    }
    for number in 0..woven.ports() {
        if !is_same_variable(woven, written, number) {
            return false;
        }
    }
    true
}

/// Whether both have the same name, ports and clock.
pub(crate) fn has_front(woven: &Named, written: &Named) -> bool
    ensures { IsTrue result ↔ HasFrontOf woven.now written.now }
{
    if woven.module().bytes() != written.module().bytes() {
        return false;
    }
    if !has_ports(woven, written) {
        return false;
    }
    woven.clock() == written.clock()
}
