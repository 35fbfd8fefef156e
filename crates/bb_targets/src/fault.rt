//! The fault of the first bit of a text's variables that has two drivers.

ghost use Rattle.std.specs.Prelude.{◌≡◌, ◌<◌, ◌^◌, IfOk, flat_map};
ghost use Rattle.bb_base.specs.Variables.{bit_count};
ghost use Rattle.bb_scope.specs.Answers.{IsAnswer};
ghost use Rattle.bb_scope.specs.Names.{item_names};
ghost use Rattle.bb_scope.specs.Uses.{AreNext};
ghost use Rattle.bb_drive.specs.Nets.{bit_text};
ghost use Rattle.bb_targets.specs.Targets.{first_twice, twice_fault};

use crate::items::{mark_inputs, mark_items};
use crate::marks::Marks;
use bb_base::{Name, Variable};
use bb_drive::index_of;
use bb_fault::{ElabFault, bit_count, range_width};
use bb_parse::Item;
use bb_scope::Scope;
use indexmap::IndexMap;
use std::alloc::{AllocError, Global};

/// How many bits the variables have.
fn bits_of(table: &IndexMap<Name, Variable>) -> u32
    requires { bit_count table.now.entries < 2 ^ 32 }
    ensures { result ≡ bit_count table.now.entries }
{
    bit_count(table) as u32
}

/// The first bit of the variables that has two drivers.
fn first_twice(
    alloc: Global,
    scope: &Scope,
    uses: &[usize],
    items: &[Item],
) -> Result<Option<u32>, AllocError>
    requires few { bit_count scope.now < 2 ^ 32 }
    requires next { AreNext scope.now (flat_map item_names items.now) uses.now }
    ensures { IfOk result (λ bit. bit ≡ first_twice scope.now items.now) }
{
    let mut marks = Marks::new(alloc, bits_of(scope.table()))?;
    mark_inputs(&mut marks, scope.table());
    mark_items(&mut marks, scope, uses, items);
    Ok(marks.twice())
}

/// How texts name the bit of this number.
fn bit_text(
    alloc: Global,
    table: &IndexMap<Name, Variable>,
    bit: u32,
) -> Result<(Name, Option<u32>), AllocError>
    requires { bit < bit_count table.now.entries }
    ensures { IfOk result (λ text. text ≡ ((bit_text table.now.entries bit).name, (bit_text table.now.entries bit).index)) }
{
    let mut place = bit as u64;
    'variables: for index in 0..table.len() {
        let (name, variable) = table.get_index(index).unwrap();
        let width = range_width(variable.range);
        if place < width {
            return Ok((name.copy(alloc)?, index_of(variable.range, place as u32)));
        }
        place -= width;
    }
    // One of the variables has the bit.
    unreachable!()
}

/// The fault of the first bit of a text's variables that has two drivers, before any gate is made. `uses` are those of the items.
pub fn twice_fault(
    alloc: Global,
    scope: &Scope,
    uses: &[usize],
    items: &[Item],
) -> Result<(), ElabFault>
    requires few { bit_count scope.now < 2 ^ 32 }
    requires next { AreNext scope.now (flat_map item_names items.now) uses.now }
    ensures { IsAnswer (twice_fault scope.now items.now) result }
{
    match first_twice(alloc, scope, uses, items)? {
        None => Ok(()),
        Some(bit) => {
            let (name, select) = bit_text(alloc, scope.table(), bit)?;
            Err(ElabFault::TwoDrivers { name, select })
        }
    }
}
