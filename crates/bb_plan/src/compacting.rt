// The rules on which registers compact: those with an Input or Split cell never do, and every other one in some session.

ghost use Rattle.std.specs.Prelude.{◌≡◌, ◌↔◌, ◌||◌, ◌<◌, ℕ, false, length, IfOk, IsTrue, get_or};
ghost use Rattle.std.specs.List.{AllByRecursion, list_any, list_all};
ghost use Rattle.std.specs.List.Sorted.{IsStrictlyIncreasing};
ghost use Rattle.bb_base.specs.Net.{Netlist};
ghost use Rattle.bb_terms.specs.Kinds.{only_generates};
ghost use Rattle.bb_terms.specs.Plan.{lists_register};
ghost use Rattle.bb_terms.specs.Rules.{IsPure, MayCompact, Pure, Sessions, Compacted};
ghost use Rattle.bb_plan.specs.Answers.{IsVerdict};
ghost use Rattle.bb_plan.specs.Tables.{IsFound, MayBeSession, AreListed, IsListedIn};

use bb_terms::{Cell, Plan, Register, Session};
use std::alloc::{AllocError, Global};

/// The most registers that sessions list together.
const MAX_LISTED: u64 = 2_097_152;

/// Rule 6: a register with an Input or Split cell has no other kinds. The place is the register.
pub fn pure(plan: &Plan) -> Option<u64>
    ensures { (a : Netlist ℕ) → IsVerdict a plan.now Pure result }
{
    'registers: for (place, register) in plan.registers.iter().enumerate() {
        if !is_pure(register) {
            return Some(place as u64);
        }
    }
    None
}

fn is_pure(register: &Register) -> bool
    ensures { IsTrue result ↔ IsPure register.now }
{
    if !register.has_input() {
        return true;
    }
    only_generate(&register.cells)
}

fn only_generate(cells: &[Cell]) -> bool
    ensures { result ≡ list_all (λ c. only_generates c.kind) cells.now }
{
    cells.iter().all(|cell| cell.kind.only_generates())
}

/// Rule 7: a session lists some registers, in ascending order, that exist and have no Input or Split cell, and with those before it
/// at most 2,097,152 of them. The place is the session.
pub fn sessions(plan: &Plan) -> Option<u64>
    ensures { (a : Netlist ℕ) → IsVerdict a plan.now Sessions result }
{
    let mut listed = 0u64;
    'sessions: for (place, session) in plan.sessions.iter().enumerate() {
        if !may_be_session(plan, &session.compact) {
            return Some(place as u64);
        }
        listed += session.compact.len() as u64;
        if listed > MAX_LISTED {
            return Some(place as u64);
        }
    }
    None
}

/// Whether these are some registers in ascending order that may compact.
fn may_be_session(plan: &Plan, compact: &[u32]) -> bool
    ensures { IsTrue result ↔ MayBeSession plan.now compact.now }
{
    if compact.is_empty() {
        return false;
    }
    if !ascends(compact) {
        return false;
    }
    all_may_compact(plan, compact)
}

fn ascends(numbers: &[u32]) -> bool
    ensures { IsTrue result ↔ IsStrictlyIncreasing numbers.now }
{
    'places: for place in 1..numbers.len() {
        if numbers[place - 1] >= numbers[place] {
            return false;
        }
    }
    true
}

fn all_may_compact(plan: &Plan, compact: &[u32]) -> bool
    ensures { IsTrue result ↔ AllByRecursion (MayCompact plan.now) compact.now }
{
    'listed: for number in compact {
        if !may_compact(plan, *number) {
            return false;
        }
    }
    true
}

/// Whether a register of this number exists and has no Input or Split cell.
fn may_compact(plan: &Plan, number: u32) -> bool
    ensures { IsTrue result ↔ MayCompact plan.now number }
{
    match plan.registers.get(number as usize) {
        Some(register) => !register.has_input(),
        None => false,
    }
}

/// Rule 8: a register without Input or Split cell is in some session. The place is the register.
pub fn compacted(alloc: Global, plan: &Plan) -> Result<Option<u64>, AllocError>
    ensures { (a : Netlist ℕ) → IfOk result (IsVerdict a plan.now Compacted) }
{
    let listed = listed_registers(alloc, plan.registers.len(), &plan.sessions)?;
    Ok(first_unlisted(&plan.registers, &listed))
}

/// For each of so many registers whether some session lists it.
fn listed_registers(
    alloc: Global,
    registers: usize,
    sessions: &[Session],
) -> Result<Vec<bool>, AllocError>
    ensures { IfOk result (λ marks. AreListed registers sessions.now marks.items) }
{
    let mut marks = vec![in alloc; false; registers]?;
    mark_sessions(&mut marks, sessions);
    Ok(marks)
}

/// Marks the registers that these sessions list.
fn mark_sessions(marks: &mut [bool], sessions: &[Session])
    ensures long { length marks.new ≡ length marks.old }
    ensures each { (r : ℕ) → r < length marks.old → get_or marks.new r false ≡ (get_or marks.old r false || list_any (lists_register r) sessions.now) }
{
    'sessions: for session in sessions {
        mark_session(marks, &session.compact);
    }
}

/// Marks these registers, where they exist.
fn mark_session(marks: &mut [bool], compact: &[u32])
    ensures long { length marks.new ≡ length marks.old }
    ensures each { (r : ℕ) → r < length marks.old → get_or marks.new r false ≡ (get_or marks.old r false || lists_register r compact.now) }
{
    'listed: for number in compact {
        let place = *number as usize;
        if place < marks.len() {
            marks[place] = true;
        }
    }
}

/// The first register that may compact and isn't marked.
fn first_unlisted(registers: &[Register], listed: &[bool]) -> Option<u64>
    requires { length registers.now ≡ length listed.now }
    ensures { IsFound registers.now (IsListedIn listed.now) result }
{
    'registers: for (place, register) in registers.iter().enumerate() {
        if !listed[place] && !register.has_input() {
            return Some(place as u64);
        }
    }
    None
}
