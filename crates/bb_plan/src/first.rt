// The first ten rules in their order.

ghost use Rattle.std.specs.Prelude.{◌≡◌, ℕ, IfOk};
ghost use Rattle.bb_base.specs.Net.{Netlist as NetlistValue};
ghost use Rattle.bb_terms.specs.Plan.{PlanValue, chain};
ghost use Rattle.bb_terms.specs.Rules.{IsFrame};
ghost use Rattle.bb_plan.specs.Answers.{MeetsTo, IsMisfitTo};

use crate::bounds::{frame, registers, room};
use crate::compacting::{compacted, pure, sessions};
use crate::scan::chain;
use crate::serving::served;
use crate::standing::{apart, columns, kinds};
use bb_base::Netlist;
use bb_terms::{Cell, Plan};
use std::alloc::{AllocError, Global};

/// A rule that a plan doesn't meet, by its number from 1, and the place at which it fails first.
#[derive(Clone, Copy, Debug, PartialEq, Eq)]
pub struct Misfit {
    pub number: u8,
    pub place: u64,
}

/// Tries the rules 1 to 10 in their order, and answers the first that a plan doesn't meet.
pub fn first_misfit(
    alloc: Global,
    netlist: &Netlist,
    plan: &Plan,
) -> Result<Option<Misfit>, AllocError>
    ensures { IfOk result (IsMisfitTo netlist.now plan.now 10) }
{
    if let Some(misfit) = register_misfit(plan) {
        return Ok(Some(misfit));
    }
    let cells = chain(alloc, plan)?;
    if let Some(misfit) = cell_misfit(alloc, netlist, &cells)? {
        return Ok(Some(misfit));
    }
    if let Some(misfit) = session_misfit(alloc, plan)? {
        return Ok(Some(misfit));
    }
    Ok(number_misfit(plan, &cells))
}

/// Rules 1 and 2.
fn register_misfit(plan: &Plan) -> Option<Misfit>
    ensures { (a : NetlistValue ℕ) → IsMisfitTo a plan.now 2 result }
{
    if let Some(place) = frame(plan) {
        return Some(Misfit { number: 1, place });
    }
    if let Some(place) = registers(plan) {
        return Some(Misfit { number: 2, place });
    }
    None
}

/// Rules 3 to 5, over the chain of a plan.
fn cell_misfit(
    alloc: Global,
    netlist: &Netlist,
    cells: &[Cell],
) -> Result<Option<Misfit>, AllocError>
    ensures { (p : PlanValue) → chain p ≡ cells.now → MeetsTo netlist.now p 2 → IfOk result (IsMisfitTo netlist.now p 5) }
{
    if let Some(place) = kinds(alloc, netlist, cells)? {
        return Ok(Some(Misfit { number: 3, place }));
    }
    if let Some(place) = apart(alloc, netlist, cells)? {
        return Ok(Some(Misfit { number: 4, place }));
    }
    if let Some(place) = served(alloc, netlist, cells)? {
        return Ok(Some(Misfit { number: 5, place }));
    }
    Ok(None)
}

/// Rules 6 to 8.
fn session_misfit(alloc: Global, plan: &Plan) -> Result<Option<Misfit>, AllocError>
    ensures { (a : NetlistValue ℕ) → MeetsTo a plan.now 5 → IfOk result (IsMisfitTo a plan.now 8) }
{
    if let Some(place) = pure(plan) {
        return Ok(Some(Misfit { number: 6, place }));
    }
    if let Some(place) = sessions(plan) {
        return Ok(Some(Misfit { number: 7, place }));
    }
    if let Some(place) = compacted(alloc, plan)? {
        return Ok(Some(Misfit { number: 8, place }));
    }
    Ok(None)
}

/// Rules 9 and 10, over the plan's chain.
fn number_misfit(plan: &Plan, cells: &[Cell]) -> Option<Misfit>
    requires frame { IsFrame plan.now }
    requires chain { cells.now ≡ chain plan.now }
    ensures { (a : NetlistValue ℕ) → MeetsTo a plan.now 8 → IsMisfitTo a plan.now 10 result }
{
    if let Some(place) = room(plan, cells) {
        return Some(Misfit { number: 9, place });
    }
    if let Some(place) = columns(plan, cells) {
        return Some(Misfit { number: 10, place });
    }
    None
}
