//! The gates and flip-flops of items.

ghost use Rattle.std.specs.Prelude.{◌≡◌, ◌<◌, ◌^◌, IfOk, OnOk, map, flat_map};
ghost use Rattle.bb_scope.specs.Names.{item_names};
ghost use Rattle.bb_base.specs.Variables.{bit_count};
ghost use Rattle.bb_scope.specs.Uses.{AreNext};
ghost use Rattle.bb_scope.specs.References.{ref_bits};
ghost use Rattle.bb_scope.specs.Making.{item_made, items_made, work_of};

use crate::cell_gates::cell_made;
use crate::prims::{add_ref_bits, prim_made};
use crate::steps::assigned;
use bb_base::{Name, NetId, Variable};
use bb_fault::{Work, bit_count};
use bb_parse::{Item, Ref};
use bb_scope::{Scope, behind, behind_item};
use indexmap::IndexMap;
use std::alloc::{AllocError, Global};

/// The bits of a left side.
#[tactic(auto, using(bb_scope::proofs::UseLaws::use_laws))]
fn targets(
    alloc: Global,
    scope: &Scope,
    uses: &[usize],
    left: &[Ref],
) -> Result<Vec<NetId>, AllocError>
    requires { AreNext scope.now (map (λ r. r.name) left.now) uses.now }
    ensures { IfOk result (λ nets. nets.items ≡ flat_map (ref_bits scope.now) left.now) }
{
    let mut nets = Vec::new(alloc);
    let mut rest = uses;
    for reference in left {
        add_ref_bits(scope, rest, reference, &mut nets)?;
        rest = behind(rest, 1);
    }
    Ok(nets)
}

/// The gates of an item.
#[tactic(auto, using(bb_scope::proofs::UseLaws::use_laws))]
fn item_made(work: &mut Work, scope: &Scope, uses: &[usize], item: &Item) -> Result<(), AllocError>
    requires next { AreNext scope.now (item_names item.now) uses.now }
    requires room { (item_made scope.now item.now work.old).1.fresh < 2 ^ 32 }
    ensures { OnOk result (work.new ≡ (item_made scope.now item.now work.old).1) }
{
    match item {
        Item::Decl(_) => Ok(()),
        Item::Assign {
            line: _,
            left,
            right,
        } => {
            let nets = targets(work.alloc, scope, uses, left.as_slice())?;
            let rest = behind(uses, left.as_slice().len());
            assigned(work, scope, &nets, rest, right.as_slice())
        }
        Item::Prim { line: _, op, terms } => prim_made(work, scope, *op, uses, terms.as_slice()),
        Item::Cell {
            line: _,
            cell,
            conns,
        } => cell_made(work, scope, cell, uses, conns),
    }
}

/// The gates of items, in the text's order.
fn items_made(
    work: &mut Work,
    scope: &Scope,
    uses: &[usize],
    items: &[Item],
) -> Result<(), AllocError>
    requires next { AreNext scope.now (flat_map item_names items.now) uses.now }
    requires room { (items_made scope.now items.now work.old).fresh < 2 ^ 32 }
    ensures { OnOk result (work.new ≡ items_made scope.now items.now work.old) }
{
    let mut rest = uses;
    for item in items {
        item_made(work, scope, rest, item)?;
        rest = behind_item(rest, item);
    }
    Ok(())
}

/// The number of the first net that is made: how many bits the variables have.
fn first_made(table: &IndexMap<Name, Variable>) -> u32
    requires { bit_count table.now.entries < 2 ^ 32 }
    ensures { result ≡ bit_count table.now.entries }
{
    bit_count(table) as u32
}

/// All that items make over the variables of their module, whose bits and made nets are counted before: there are numbers for all.
#[tactic(auto, using(crate::proofs::Growing::growth))]
pub fn work_of(
    alloc: Global,
    scope: &Scope,
    uses: &[usize],
    items: &[Item],
) -> Result<Work, AllocError>
    requires next { AreNext scope.now (flat_map item_names items.now) uses.now }
    requires room { (work_of scope.now items.now).fresh < 2 ^ 32 }
    ensures { IfOk result (λ work. work ≡ work_of scope.now items.now) }
{
    let mut work = Work {
        alloc,
        fresh: first_made(scope.table()),
        gates: Vec::new(alloc),
        flops: Vec::new(alloc),
    };
    items_made(&mut work, scope, uses, items)?;
    Ok(work)
}
