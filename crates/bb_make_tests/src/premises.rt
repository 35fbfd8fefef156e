// Whether something can be made of a netlist and settings: small netlists show it by their variables.

ghost use Rattle.std.specs.Prelude.{◌≡◌, ◌≤◌, None, true};
ghost use Rattle.std.specs.List.{All};
ghost use Rattle.bb_base.specs.OwnNames.{made_name};
ghost use Rattle.bb_base.specs.Variables.{bit_count};
ghost use Rattle.bb_choose.specs.Arranged.{AreInRange};
ghost use Rattle.bb_ctl.specs.OwnNames.{HasOwnNames, IsOwnName};

use bb_base::{Name, Variable, is_reserved, made_name};
use bb_make::Settings;
use bb_net::Named;
use std::alloc::Global;

/// Whether a variable is a single bit, and its name is not reserved or that of the first made wire.
fn is_fit(name: &Name, variable: Variable, made: &Name) -> bool
    requires { made.now ≡ made_name 0 }
    ensures { result ≡ true → IsOwnName name.now × (variable.range ≡ None) }
{
    if variable.range.is_some() {
        return false;
    }
    if !is_reserved(name) {
        return true;
    }
    name == made
}

/// Whether all variables are fit.
fn all_fit(named: &Named, made: &Name) -> bool
    requires { made.now ≡ made_name 0 }
    ensures { result ≡ true → All (λ v. IsOwnName v.0 × (v.1.range ≡ None)) named.now.variables }
{
    'variables: for number in 0..named.variables() {
        let (name, variable) = named.variable(number);
        if !is_fit(name, variable, made) {
            return false;
        }
    }
    true
}

/// Whether a netlist has at most 2,097,152 variables, and all are fit.
fn is_small(named: &Named, made: &Name) -> bool
    requires { made.now ≡ made_name 0 }
    ensures own { result ≡ true → HasOwnNames named.now }
    ensures few { result ≡ true → bit_count named.now.variables ≤ 2097152 }
{
    if named.variables() > 2097152 {
        return false;
    }
    all_fit(named, made)
}

/// Whether a netlist has few bits, and names beside which those of a self-test can stand.
pub(crate) fn is_fit_for_a_test(alloc: Global, named: &Named) -> bool
    ensures own { result ≡ true → HasOwnNames named.now }
    ensures few { result ≡ true → bit_count named.now.variables ≤ 2097152 }
{
    match made_name(alloc, 0) {
        Ok(made) => is_small(named, &made),
        Err(_) => false,
    }
}

/// Whether settings are in range.
pub(crate) fn are_in_range(settings: &Settings) -> bool
    ensures { result ≡ true → AreInRange settings.now }
{
    if settings.width < 2 || settings.width > 12 {
        return false;
    }
    if settings.min_degree < 1 || settings.max_degree > 20 {
        return false;
    }
    if settings.max_degree < settings.min_degree {
        return false;
    }
    settings.register >= 1 && settings.register <= 16
}
