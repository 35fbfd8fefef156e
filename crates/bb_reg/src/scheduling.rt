//! Sessions: the registers that may compact, by first fit.

ghost use Rattle.std.specs.Prelude.{◌≡◌, ◌<◌, ◌^◌, ◌++◌, ◌∷◌, [], length, map, IfOk, OnOk, slice_index, if◌then◌else◌};
ghost use Rattle.std.specs.List.{AllByRecursion, flat_map};
ghost use Rattle.bb_terms.specs.Plan.{has_input};
ghost use Rattle.bb_reg.specs.Chosen.{compacting_from, scheduled_of, seen_cells};
ghost use Rattle.bb_reg.specs.Fitting.{ends_of_all};

use crate::Grouped;
use crate::ends::{Ends, ends_of};
use crate::fit::fit;
use crate::index::Numbers;
use arrayvec::ArrayVec;
use bb_base::NetId;
use bb_terms::{Register, Session};
use std::alloc::{AllocError, Global};

/// The numbers of the registers that may compact, and what their observers give and read.
#[derive(Drop)]
struct Compacting {
    numbers: Vec<u32>,
    items: Vec<Ends>,
}

/// Adds a register, where it may compact.
fn note(
    alloc: Global,
    compacting: &mut Compacting,
    number: u32,
    register: &Register,
    leaves: &[ArrayVec<NetId, 16>],
) -> Result<(), AllocError>
    requires { length register.now.cells ≡ length leaves.now }
    ensures numbers { OnOk result (compacting.new.numbers.items ≡ compacting.old.numbers.items ++ (if has_input register.now then [] else number ∷ [])) }
    ensures items { OnOk result (compacting.new.items.items ≡ compacting.old.items.items ++ (if has_input register.now then [] else ends_of_all (seen_cells register.now.cells (map (λ l. l.items) leaves.now)) ∷ [])) }
{
    if register.has_input() {
        return Ok(());
    }
    let ends = ends_of(alloc, &register.cells, leaves)?;
    compacting.items.push(ends)?;
    compacting.numbers.push(number)?;
    Ok(())
}

/// The registers that may compact.
fn compacting_of(
    alloc: Global,
    registers: &[Register],
    leaves: &[ArrayVec<NetId, 16>],
) -> Result<Compacting, AllocError>
    requires few { length registers.now < 2 ^ 32 }
    requires leaves { length leaves.now ≡ length (flat_map (λ g. g.cells) registers.now) }
    ensures numbers { IfOk result (λ compacting. compacting.numbers.items ≡ map (λ x. x.0) (compacting_from 0 registers.now (map (λ l. l.items) leaves.now))) }
    ensures items { IfOk result (λ compacting. compacting.items.items ≡ map (λ x. ends_of_all x.1) (compacting_from 0 registers.now (map (λ l. l.items) leaves.now))) }
{
    let mut compacting = Compacting {
        numbers: Vec::new(alloc),
        items: Vec::new(alloc),
    };
    let mut rest = leaves;
    'registers: for (number, register) in registers.iter().enumerate() {
        let (own, after) = rest.split_at(register.cells.len());
        note(alloc, &mut compacting, number as u32, register, own)?;
        rest = after;
    }
    Ok(compacting)
}

/// The numbers at some places.
fn picked(alloc: Global, numbers: &[u32], places: &[u32]) -> Result<Vec<u32>, AllocError>
    requires { AllByRecursion (λ j. j < length numbers.now) places.now }
    ensures { IfOk result (λ own. own.items ≡ map (slice_index numbers.now) places.now) }
{
    let mut own = Vec::new(alloc);
    'places: for place in places {
        own.push(numbers[*place as usize])?;
    }
    Ok(own)
}

/// A session for each group.
fn sessions_of(
    alloc: Global,
    numbers: &[u32],
    groups: &[Numbers],
) -> Result<Vec<Session>, AllocError>
    requires { AllByRecursion (AllByRecursion (λ j. j < length numbers.now)) groups.now }
    ensures { IfOk result (λ sessions. sessions.items ≡ map (map (slice_index numbers.now)) groups.now) }
{
    let mut sessions = Vec::new(alloc);
    'groups: for group in groups {
        let compact = picked(alloc, numbers, group.as_slice())?;
        sessions.push(Session { compact })?;
    }
    Ok(sessions)
}

/// The sessions of all registers that may compact, which are those without Input and Split cells: each in the first session with no
/// register that it is in conflict with, else in a new one.
pub fn sessions(alloc: Global, grouped: &Grouped) -> Result<Vec<Session>, AllocError>
    requires few { length grouped.now.registers < 2 ^ 32 }
    requires leaves { length grouped.now.leaves ≡ length (flat_map (λ g. g.cells) grouped.now.registers) }
    ensures sessions { IfOk result (λ sessions. sessions.items ≡ scheduled_of grouped.now) }
{
    let compacting = compacting_of(alloc, &grouped.registers, &grouped.leaves)?;
    let groups = fit(alloc, &compacting.items, u32::MAX)?;
    sessions_of(alloc, &compacting.numbers, &groups)
}
