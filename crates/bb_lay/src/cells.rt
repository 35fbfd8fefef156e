//! The rows of the cells.

ghost use Rattle.std.specs.Prelude.{◌≡◌, ◌<◌, ◌+◌, ◌^◌, ◌++◌, ◌∷◌, [], IfOk, OnOk, All, length};
ghost use Rattle.bb_base.specs.Net.{driven};
ghost use Rattle.bb_base.specs.Bits.{picked};
ghost use Rattle.bb_terms.specs.OnBits.{shifted};
ghost use Rattle.bb_terms.specs.Kinds.{is_source, has_line, is_behind};
ghost use Rattle.bb_terms.specs.Plan.{chain};
ghost use Rattle.bb_terms.specs.Controller.{gate_row, word_from};
ghost use Rattle.bb_ctl.specs.Numbers.{HasNumbers};
ghost use Rattle.bb_terms.specs.Reads.{q_of};
ghost use Rattle.bb_written.specs.Cells.{when, xor_row, next_terms, all_cells_from};
ghost use Rattle.bb_lay.specs.Tables.{rows_of_cell, rows_in, all_rows_in, AreTables, IsOn};

use crate::reads::{Tables, line_of};
use crate::row::{picked, push_row, push_xor};
use bb_base::{NetId, Netlist, Op};
use bb_ctl::Row;
use bb_terms::{Cell, Kind, Plan, Wire};
use std::alloc::{AllocError, Global};

/// The bit of the cell of this number.
pub(crate) fn q_of(i: u32, cell: Cell) -> Wire
    ensures { result ≡ q_of i cell }
{
    match cell.kind {
        Kind::State | Kind::Split => Wire::Kept(cell.net.0),
        Kind::Input | Kind::Cut | Kind::Watch | Kind::Output => Wire::Held(i),
    }
}

/// The word that the complete register takes next.
fn word_ahead(alloc: Global, degree: u32) -> Result<Vec<Wire>, AllocError>
    ensures { IfOk result (λ ahead. ahead.items ≡ shifted Wire.Feed (word_from 0 degree)) }
{
    let mut ahead = Vec::new(alloc);
    let mut before = Wire::Feed;
    'bits: for i in 0..degree {
        ahead.push(before)?;
        before = Wire::Word(i);
    }
    Ok(ahead)
}

/// AddsAll the row of a cell's line, where it has one.
fn push_line(
    alloc: Global,
    rows: &mut Vec<Row>,
    r: u32,
    i: u32,
    kind: Kind,
    line: Wire,
) -> Result<(), AllocError>
    ensures { OnOk result (rows.new.items ≡ rows.old.items ++ when (has_line kind) (gate_row Op.And (Wire.Line i) (Wire.Latches r ∷ line ∷ []) ∷ [])) }
{
    if kind.has_line() {
        return push_row(
            alloc,
            rows,
            Op::And,
            Wire::Line(i),
            &[Wire::Latches(r), line],
        );
    }
    Ok(())
}

/// AddsAll the rows of a cell's code line, where the cell is a source.
fn push_code(
    alloc: Global,
    rows: &mut Vec<Row>,
    r: u32,
    i: u32,
    cell: &Cell,
    ahead: &[Wire],
) -> Result<(), AllocError>
    ensures { OnOk result (rows.new.items ≡ rows.old.items ++ when (is_source cell.now.kind) (xor_row (Wire.Code i) (picked cell.now.column ahead.now) ∷ gate_row Op.And (Wire.Coded i) (Wire.Codes r ∷ Wire.Code i ∷ []) ∷ [])) }
{
    if cell.kind.is_source() {
        let taken = picked(alloc, cell.column, ahead)?;
        push_xor(alloc, rows, Wire::Code(i), &taken)?;
        return push_row(
            alloc,
            rows,
            Op::And,
            Wire::Coded(i),
            &[Wire::Codes(r), Wire::Code(i)],
        );
    }
    Ok(())
}

/// AddsAll the row of what a cell takes at the next edge.
fn push_next(alloc: Global, rows: &mut Vec<Row>, i: u32, kind: Kind) -> Result<(), AllocError>
    ensures { OnOk result (rows.new.items ≡ rows.old.items ++ gate_row Op.Xor (Wire.Next i) (next_terms kind i) ∷ []) }
{
    let (line, chain, coded) = (Wire::Line(i), Wire::Chain(i), Wire::Coded(i));
    match kind {
        Kind::Input => push_row(alloc, rows, Op::Xor, Wire::Next(i), &[chain, coded]),
        Kind::State | Kind::Split | Kind::Cut => {
            push_row(alloc, rows, Op::Xor, Wire::Next(i), &[line, chain, coded])
        }
        Kind::Watch | Kind::Output => push_row(alloc, rows, Op::Xor, Wire::Next(i), &[line, chain]),
    }
}

/// AddsAll the rows of what is read behind a cell, where it stands behind its net.
fn push_behind(alloc: Global, rows: &mut Vec<Row>, i: u32, cell: &Cell) -> Result<(), AllocError>
    ensures { OnOk result (rows.new.items ≡ rows.old.items ++ when (is_behind cell.now.kind) (gate_row Op.And (Wire.InTest i) (Wire.Test ∷ Wire.Held i ∷ []) ∷ gate_row Op.And (Wire.InNormal i) (Wire.NotTest ∷ Wire.Kept cell.now.net ∷ []) ∷ gate_row Op.Or (Wire.Read i) (Wire.InTest i ∷ Wire.InNormal i ∷ []) ∷ [])) }
{
    if cell.kind.is_behind() {
        let kept = Wire::Kept(cell.net.0);
        push_row(
            alloc,
            rows,
            Op::And,
            Wire::InTest(i),
            &[Wire::Test, Wire::Held(i)],
        )?;
        push_row(
            alloc,
            rows,
            Op::And,
            Wire::InNormal(i),
            &[Wire::NotTest, kept],
        )?;
        return push_row(
            alloc,
            rows,
            Op::Or,
            Wire::Read(i),
            &[Wire::InTest(i), Wire::InNormal(i)],
        );
    }
    Ok(())
}

/// AddsAll the rows of cell `i` of register `r`, which stands behind `before` and has this line.
fn push_cell(
    alloc: Global,
    rows: &mut Vec<Row>,
    ahead: &[Wire],
    r: u32,
    i: u32,
    before: Wire,
    line: Wire,
    cell: &Cell,
) -> Result<(), AllocError>
    ensures { OnOk result (rows.new.items ≡ rows.old.items ++ rows_of_cell ahead.now r i before line cell.now) }
{
    push_line(alloc, rows, r, i, cell.kind, line)?;
    push_row(
        alloc,
        rows,
        Op::And,
        Wire::Chain(i),
        &[Wire::Takes(r), before],
    )?;
    push_code(alloc, rows, r, i, cell, ahead)?;
    push_next(alloc, rows, i, cell.kind)?;
    push_behind(alloc, rows, i, cell)
}

/// AddsAll the rows of the cells of register `r`, of which the first has number `first`.
fn push_register(
    alloc: Global,
    rows: &mut Vec<Row>,
    reads: &[Wire],
    ds: &[NetId],
    ahead: &[Wire],
    r: u32,
    first: u32,
    cells: &[Cell],
) -> Result<(), AllocError>
    requires few { first + length cells.now < 2 ^ 32 }
    requires within { All (IsOn (length ds.now)) cells.now }
    requires nets { All (λ d. d < length reads.now) ds.now }
    ensures { OnOk result (rows.new.items ≡ rows.old.items ++ rows_in reads.now ds.now ahead.now r first (Wire.First r) cells.now) }
{
    let mut before = Wire::First(r);
    let mut i = first;
    'cells: for cell in cells {
        let line = line_of(reads, ds, *cell);
        push_cell(alloc, rows, ahead, r, i, before, line, cell)?;
        before = q_of(i, *cell);
        i += 1;
    }
    Ok(())
}

/// AddsAll the rows of the cells of all registers.
fn push_registers(
    alloc: Global,
    rows: &mut Vec<Row>,
    reads: &[Wire],
    ds: &[NetId],
    ahead: &[Wire],
    plan: &Plan,
) -> Result<(), AllocError>
    requires registers { length plan.now.registers < 2 ^ 32 }
    requires cells { length (chain plan.now) < 2 ^ 32 }
    requires within { All (IsOn (length ds.now)) (chain plan.now) }
    requires nets { All (λ d. d < length reads.now) ds.now }
    ensures { OnOk result (rows.new.items ≡ rows.old.items ++ all_rows_in reads.now ds.now ahead.now 0 0 plan.now.registers) }
{
    let mut first: u32 = 0;
    'registers: for (r, register) in plan.registers.iter().enumerate() {
        let cells: &[Cell] = &register.cells;
        push_register(alloc, rows, reads, ds, ahead, r as u32, first, cells)?;
        first += cells.len() as u32;
    }
    Ok(())
}

/// The rows of the cells of all registers.
pub(crate) fn cell_rows(
    alloc: Global,
    netlist: &Netlist,
    plan: &Plan,
    tables: &Tables,
) -> Result<Vec<Row>, AllocError>
    requires numbers { HasNumbers plan.now }
    requires within { All (IsOn (length (driven netlist.now))) (chain plan.now) }
    requires tables { AreTables netlist.now plan.now tables.now.reads.items tables.now.ds.items }
    ensures { IfOk result (λ rows. rows.items ≡ all_cells_from netlist.now plan.now 0 0 plan.now.registers) }
{
    let ahead = word_ahead(alloc, plan.degree)?;
    let mut rows = Vec::new(alloc);
    push_registers(alloc, &mut rows, &tables.reads, &tables.ds, &ahead, plan)?;
    Ok(rows)
}
