//! The signatures of each session's registers.

ghost use Rattle.std.specs.Prelude.{◌≡◌, ◌<◌, ℕ, length, map, All, IfOk, slice_index};
ghost use Rattle.bb_base.specs.Order.{IsOrder};
ghost use Rattle.bb_terms.specs.Valid.{IsValidFor};
ghost use Rattle.bb_terms.specs.Signatures.{AreSignatures};

use crate::compactors::compactors_of;
use crate::evaluation::evaluation_of;
use crate::walk::walk;
use bb_base::Netlist;
use bb_netlist::Order;
use bb_terms::{Session, Valid};
use std::alloc::{AllocError, Global};

/// The registers of each session.
fn listed(alloc: Global, sessions: &[Session]) -> Result<Vec<Vec<u32>>, AllocError>
    ensures { IfOk result (λ lists. map (λ list. list.items) lists.items ≡ sessions.now) }
{
    let mut lists = Vec::new(alloc);
    'sessions: for session in sessions {
        lists.push(Vec::from_slice(alloc, &session.compact)?)?;
    }
    Ok(lists)
}

/// So many registers that hold 0.
fn none_held(alloc: Global, registers: usize) -> Result<Vec<u32>, AllocError>
    ensures long { IfOk result (λ held. length held.items ≡ registers) }
    ensures zero { IfOk result (λ held. (r : ℕ) → slice_index held.items r ≡ 0) }
{
    Ok(vec![in alloc; 0; registers]?)
}

/// So many words.
fn no_words(alloc: Global, count: usize) -> Result<Vec<u64>, AllocError>
    ensures { IfOk result (λ words. length words.items ≡ count) }
{
    Ok(vec![in alloc; 0; count]?)
}

/// Puts what registers hold in place of their numbers.
fn put_held(held: &[u32], list: &mut [u32])
    requires { All (λ r. r < length held.now) list.old }
    ensures { list.new ≡ map (slice_index held.now) list.old }
{
    'list: for place in 0..list.len() {
        list[place] = held[list[place] as usize];
    }
}

/// The same in each list.
fn put_all(held: &[u32], lists: &mut Vec<Vec<u32>>)
    requires { All (λ list. All (λ r. r < length held.now) list.items) lists.old.items }
    ensures { map (λ list. list.items) lists.new.items ≡ map (λ list. map (slice_index held.now) list.items) lists.old.items }
{
    'lists: for place in 0..lists.len() {
        put_held(held, &mut lists[place]);
    }
}

/// The signatures of a valid plan: a list a session, with a number for each register that compacts there, in the session's order. The
/// lowest bit of a number is the register's first cell.
pub fn signatures(
    alloc: Global,
    netlist: &Netlist,
    order: &Order,
    valid: &Valid,
) -> Result<Vec<Vec<u32>>, AllocError>
    requires order { IsOrder netlist.now.gates order.now }
    requires valid { IsValidFor netlist.now valid.now }
    ensures signatures { IfOk result (λ lists. AreSignatures netlist.now valid.now.plan (map (λ list. list.items) lists.items)) }
{
    let plan = valid.plan();
    let evaluation = evaluation_of(alloc, netlist, order, plan)?;
    let mut words = no_words(alloc, evaluation.nets.len())?;
    let mut values = no_words(alloc, netlist.nets() as usize)?;
    let compactors = compactors_of(alloc, netlist, plan)?;
    let mut held = none_held(alloc, compactors.len())?;
    let mut lists = listed(alloc, &plan.sessions)?;
    walk(
        netlist,
        plan,
        &evaluation,
        &compactors,
        &mut words,
        &mut values,
        &mut held,
    );
    put_all(&held, &mut lists);
    Ok(lists)
}
