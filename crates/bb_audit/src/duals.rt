//! The duals of a certificate.

ghost use Rattle.std.specs.Prelude.{◌≡◌, ◌↔◌, ◌++◌, ◌≤◌, ◌<◌, ℕ, length, map, None, Some, IsTrue, OnOk, IfOk, slice_index};
ghost use Rattle.bb_base.specs.Dual.{IsDual};
ghost use Rattle.bb_terms.specs.Plan.{chain};
ghost use Rattle.bb_audit.specs.Certified.{HaveDuals, AllHaveDuals, IsFirstWithoutDuals};

use crate::lines::state_count;
use bb_forms::CertificateSegment;
use bb_gf2::code_bit;
use bb_terms::{Cell, Plan};
use std::alloc::{AllocError, Global};

/// Adds the columns of some cells.
fn add_columns(columns: &mut Vec<u32>, cells: &[Cell]) -> Result<(), AllocError>
    ensures { OnOk result (columns.new.items ≡ columns.old.items ++ map (λ c. c.column) cells.now) }
{
    'cells: for cell in cells {
        columns.push(cell.column)?;
    }
    Ok(())
}

/// The columns of all cells of the chain.
fn columns_of(alloc: Global, plan: &Plan) -> Result<Vec<u32>, AllocError>
    ensures { IfOk result (λ columns. columns.items ≡ map (λ c. c.column) (chain plan.now)) }
{
    let mut columns = Vec::new(alloc);
    'registers: for register in &plan.registers {
        add_columns(&mut columns, &register.cells)?;
    }
    Ok(columns)
}

/// The column of a cell by its number, 0 where there is none.
fn column_at(columns: &[u32], cell: u32) -> u32
    ensures { result ≡ slice_index columns.now cell }
{
    match columns.get(cell as usize) {
        Some(column) => *column,
        None => 0,
    }
}

/// Whether a vector picks out the column of the cell at a place among those that pairs begin with.
fn is_dual(columns: &[u32], pairs: &[(u32, u32)], place: usize, dual: u32) -> bool
    ensures { IsTrue result ↔ IsDual (map (λ pair. slice_index columns.now pair.0) pairs.now) place dual }
{
    'pairs: for (other, pair) in pairs.iter().enumerate() {
        if code_bit(column_at(columns, pair.0), dual) != (other == place) {
            return false;
        }
    }
    true
}

/// The number that a pair ends in.
fn dual_at(pairs: &[(u32, u32)], place: usize) -> u32
    requires { place < length pairs.now }
    ensures { result ≡ slice_index (map (λ pair. pair.1) pairs.now) place }
{
    pairs[place].1
}

/// Whether pairs end in duals of their cells' columns, as short as states.
fn have_duals(plan: &Plan, columns: &[u32], pairs: &[(u32, u32)]) -> bool
    requires degree { plan.now.degree ≤ 20 }
    requires columns { columns.now ≡ map (λ c. c.column) (chain plan.now) }
    ensures { IsTrue result ↔ HaveDuals plan.now pairs.now }
{
    let limit = state_count(plan);
    for place in 0..pairs.len() {
        let dual = dual_at(pairs, place);
        if dual >= limit {
            return false;
        }
        if !is_dual(columns, pairs, place, dual) {
            return false;
        }
    }
    true
}

/// Whether a line has duals.
fn has_duals(plan: &Plan, columns: &[u32], line: &CertificateSegment) -> bool
    requires degree { plan.now.degree ≤ 20 }
    requires columns { columns.now ≡ map (λ c. c.column) (chain plan.now) }
    ensures { IsTrue result ↔ HaveDuals plan.now line.now.pairs }
{
    have_duals(plan, columns, &line.pairs)
}

/// The observer of the first line without duals, where the columns are at hand.
fn first_without(plan: &Plan, columns: &[u32], lines: &[CertificateSegment]) -> Option<u32>
    requires degree { plan.now.degree ≤ 20 }
    requires columns { columns.now ≡ map (λ c. c.column) (chain plan.now) }
    ensures none { result ≡ None → AllHaveDuals plan.now lines.now }
    ensures first { (cell : ℕ) → result ≡ Some cell → IsFirstWithoutDuals plan.now lines.now cell }
{
    'lines: for line in lines {
        if !has_duals(plan, columns, line) {
            return Some(line.cell);
        }
    }
    None
}

/// The observer of the first line of a certificate whose pairs don't end in duals.
pub(crate) fn first_without_duals(
    alloc: Global,
    plan: &Plan,
    lines: &[CertificateSegment],
) -> Result<Option<u32>, AllocError>
    requires degree { plan.now.degree ≤ 20 }
    ensures none { IfOk result (λ found. found ≡ None → AllHaveDuals plan.now lines.now) }
    ensures first { IfOk result (λ found. (cell : ℕ) → found ≡ Some cell → IsFirstWithoutDuals plan.now lines.now cell) }
{
    let columns = columns_of(alloc, plan)?;
    Ok(first_without(plan, &columns, lines))
}
