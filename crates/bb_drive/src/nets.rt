//! All variables, which of their bits are nets, and the faults of drivers.

ghost use Rattle.std.specs.Prelude.{◌≡◌, ◌≢◌, ◌<◌, ◌++◌, ◌∷◌, [], IfOk, IfErr, OnOk, Some, None, map, not, if◌then◌else◌};
ghost use Rattle.std.specs.Option.{option_map};
ghost use Rattle.bb_base.specs.Variables.{range_width, index_at, bit_count};
ghost use Rattle.bb_base.specs.OwnNames.{made_name};
ghost use Rattle.bb_fault.specs.declared.fault.ElabFault.TheVariants.{NoMemory};
ghost use Rattle.bb_drive.specs.Nets.{made_names, made_count, made_variable, is_variable, all_variables, nets, bit_text, driver_fault};

use crate::drivers::{drivers, first_twice, first_undriven, readers, used_bits};
use bb_base::{Name, Role, Variable, made_name};
use bb_fault::{ElabFault, Work, bit_count, range_width};
use indexmap::IndexMap;
use std::alloc::{AllocError, Global};

/// Adds a scalar wire with the made name of a number, unless that is a variable, and answers whether it is added.
fn add_wire(
    alloc: Global,
    vars: &mut IndexMap<Name, Variable>,
    number: u64,
) -> Result<bool, AllocError>
    ensures added { IfOk result (λ added. added ≡ not (is_variable vars.old.entries (made_name number))) }
    ensures entries { IfOk result (λ added. vars.new.entries ≡ (if added then vars.old.entries ++ made_variable (made_name number) ∷ [] else vars.old.entries)) }
{
    let name = made_name(alloc, number)?;
    if vars.get(&name).is_some() {
        return Ok(false);
    }
    let wire = Variable {
        range: None,
        role: Role::Wire,
    };
    vars.insert(name, wire)?;
    Ok(true)
}

/// Adds a scalar wire for each of so many made nets, with the first names that are no variables.
fn add_wires(
    alloc: Global,
    vars: &mut IndexMap<Name, Variable>,
    count: u32,
) -> Result<(), AllocError>
    ensures { OnOk result (vars.new.entries ≡ vars.old.entries ++ map made_variable (made_names vars.old.entries count)) }
{
    // Among so many names there are enough, since each variable takes one at most.
    let end = count as u64 + vars.len() as u64;
    let mut left = count;
    for number in 0..end {
        if left == 0 {
            return Ok(());
        }
        if add_wire(alloc, vars, number)? {
            left -= 1;
        }
    }
    Ok(())
}

/// How many nets are made beside the bits of the text's variables.
fn made_count(table: &IndexMap<Name, Variable>, work: &Work) -> u32
    ensures { result ≡ made_count table.now.entries work.now }
{
    (work.fresh as u64).saturating_sub(bit_count(table)) as u32
}

/// The text's variables, and then a scalar wire for each made net.
pub fn all_variables(
    alloc: Global,
    table: IndexMap<Name, Variable>,
    work: &Work,
) -> Result<IndexMap<Name, Variable>, AllocError>
    ensures { IfOk result (λ vars. vars.entries ≡ all_variables table.entries work.now) }
{
    let count = made_count(&table, work);
    let mut vars = table;
    add_wires(alloc, &mut vars, count)?;
    Ok(vars)
}

/// The index that texts write for a place from the left, where the variable is a vector.
pub fn index_of(range: Option<(u32, u32)>, place: u32) -> Option<u32>
    requires { place < range_width range }
    ensures { result ≡ option_map (λ r. index_at r place) range }
{
    match range {
        None => None,
        Some((left, right)) => Some(if left <= right {
            left + place
        } else {
            left - place
        }),
    }
}

/// How texts name the bit of this number.
pub(crate) fn bit_text(
    alloc: Global,
    vars: &IndexMap<Name, Variable>,
    bit: u32,
) -> Result<(Name, Option<u32>), AllocError>
    requires { bit < bit_count vars.now.entries }
    ensures { IfOk result (λ text. text ≡ ((bit_text vars.now.entries bit).name, (bit_text vars.now.entries bit).index)) }
{
    let mut place = bit as u64;
    for index in 0..vars.len() {
        let (name, variable) = vars.get_index(index).unwrap();
        let width = range_width(variable.range);
        if place < width {
            return Ok((name.copy(alloc)?, index_of(variable.range, place as u32)));
        }
        place -= width;
    }
    // One of the variables has the bit.
    unreachable!()
}

/// The bits that are nets, ascending, where each has exactly one driver, or the first that hasn't.
///
/// The variables have as many bits as the work has numbers, so that each of its bits has a name.
pub fn driven_nets(
    alloc: Global,
    vars: &IndexMap<Name, Variable>,
    work: &Work,
) -> Result<Vec<u32>, ElabFault>
    requires { bit_count vars.now.entries ≡ work.now.fresh }
    ensures nets { IfOk result (λ bits. bits.items ≡ nets vars.now.entries work.now) }
    ensures fine { OnOk result (driver_fault vars.now.entries work.now ≡ None) }
    ensures fault { IfErr result (λ fault. fault ≢ NoMemory → driver_fault vars.now.entries work.now ≡ Some fault) }
{
    let drivers = drivers(alloc, vars, work)?;
    let readers = readers(alloc, vars, work)?;
    if let Some(bit) = first_twice(&drivers) {
        let (name, select) = bit_text(alloc, vars, bit)?;
        return Err(ElabFault::TwoDrivers { name, select });
    }
    if let Some(bit) = first_undriven(&drivers, &readers) {
        let (name, select) = bit_text(alloc, vars, bit)?;
        return Err(ElabFault::Undriven { name, select });
    }
    Ok(used_bits(alloc, &drivers, &readers)?)
}
