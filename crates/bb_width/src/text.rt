//! The faults that a text shows before any gate is made, each tried where no earlier one was found.

ghost use Rattle.std.specs.Prelude.{◌≡◌, IfOk, fold, flat_map, []};
ghost use Rattle.bb_scope.specs.Declarations.{declarations, redeclared};
ghost use Rattle.bb_scope.specs.Said.{with_decl};
ghost use Rattle.bb_scope.specs.Names.{item_names};
ghost use Rattle.bb_scope.specs.Uses.{AreNext};
ghost use Rattle.bb_scope.specs.Answers.{IsAnswer};
ghost use Rattle.bb_scope.specs.Variables.{variables};
ghost use Rattle.bb_fault.specs.Limits.{told_count};
ghost use Rattle.bb_base.specs.Variables.{bit_count};
ghost use Rattle.bb_scope.specs.Text.{name_fault, part_fault, text_fault};

use crate::parts::items;
use crate::{Used, port_fault, reserved_fault, table_of};
use bb_base::{Name, Variable};
use bb_fault::{ElabFault, bit_count, too_many};
use bb_parse::Module;
use bb_scope::{Said, Scope, declared, unknown_cell};
use indexmap::IndexMap;
use std::alloc::Global;

/// A fault that was found, as an error.
fn refuse(found: Option<ElabFault>) -> Result<(), ElabFault>
    ensures { IsAnswer found result }
{
    match found {
        None => Ok(()),
        Some(fault) => Err(fault),
    }
}

/// The first fault of names and declarations, where `clash` is that of declarations, and `bits` how many bits the variables have.
fn name_fault(
    alloc: Global,
    own: bool,
    module: &Module,
    said: &IndexMap<Name, Said>,
    clash: Option<ElabFault>,
    table: &IndexMap<Name, Variable>,
    bits: u64,
) -> Result<(), ElabFault>
    requires said { said.now.entries ≡ fold with_decl [] (declarations «module».now) }
    requires clash { clash ≡ redeclared «module».now }
    requires table { table.now.entries ≡ variables «module».now }
    requires bits { bits ≡ told_count (bit_count (variables «module».now)) }
    ensures { IsAnswer (name_fault own «module».now) result }
{
    reserved_fault(alloc, own, module, table)?;
    refuse(clash)?;
    port_fault(alloc, said, module)?;
    refuse(too_many(own, bits))
}

/// The first fault of cells, pins, selects and widths, and of the nets that these make, where `uses` are those of the items.
fn part_fault(
    alloc: Global,
    own: bool,
    module: &Module,
    scope: &Scope,
    uses: &[usize],
    bits: u64,
) -> Result<(), ElabFault>
    requires scope { scope.now ≡ variables «module».now }
    requires uses { AreNext scope.now (flat_map item_names «module».now.items) uses.now }
    requires bits { bits ≡ told_count (bit_count (variables «module».now)) }
    ensures { IsAnswer (part_fault own «module».now) result }
{
    let list = module.items.as_slice();
    unknown_cell(alloc, list)?;
    let nets = items(alloc, scope, uses, list)?;
    refuse(too_many(own, bits.saturating_add(nets)))
}

/// The variables of a module whose text has no fault, and the variable of each use in its items.
#[derive(Drop)]
pub struct Bound {
    pub scope: Scope,
    pub uses: Vec<usize>,
}

/// The variables of a module and their uses, or the first fault of its text.
pub fn checked(alloc: Global, own: bool, module: &Module) -> Result<Bound, ElabFault>
    ensures scope { IfOk result (λ bound. bound.scope ≡ variables «module».now) }
    ensures uses { IfOk result (λ bound. AreNext bound.scope (flat_map item_names «module».now.items) bound.uses.items) }
    ensures fault { IsAnswer (text_fault own «module».now) result }
{
    let (said, clash) = declared(alloc, module)?;
    let Used { table, uses } = table_of(alloc, &said, module)?;
    let bits = bit_count(&table);
    name_fault(alloc, own, module, &said, clash, &table, bits)?;
    let scope = Scope::new(alloc, table)?;
    part_fault(alloc, own, module, &scope, &uses, bits)?;
    Ok(Bound { scope, uses })
}

/// The first fault of a module's text, before any gate is made: of names, declarations, ports, cells, pins, selects, widths
/// and the number of bits.
pub fn text_fault(alloc: Global, module: &Module, own: bool) -> Result<(), ElabFault>
    ensures { IsAnswer (text_fault own «module».now) result }
{
    let _bound = checked(alloc, own, module)?;
    Ok(())
}
