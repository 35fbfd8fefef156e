//! The registers' rows.

ghost use Rattle.std.specs.Prelude.{◌≡◌, ◌++◌, ◌∷◌, [], ◌<◌, ◌^◌, OnOk, IfOk, None, length, map};
ghost use Rattle.bb_terms.specs.Plan.{chain};
ghost use Rattle.bb_terms.specs.Reads.{qs_from};
ghost use Rattle.bb_terms.specs.Registers.{pass_row, carry_row, idle_rows, mode_rows, sign_rows, rows_of_register, registers_from, control_rows};
ghost use Rattle.bb_ctl.specs.Numbers.{HasNumbers};
ghost use Rattle.bb_ctl.specs.Turns.{AreSessionsOf};

use crate::cells::{chain_qs, last_or};
use crate::controller::{picked, push_controller};
use crate::row::{Row, push_row};
use crate::turns::{Turns, turns_of};
use bb_base::Op;
use bb_terms::{Plan, Wire};
use std::alloc::{AllocError, Global};

/// Adds the row of what stands before the first cell of a register that is in no session.
fn push_pass(
    alloc: Global,
    rows: &mut Vec<Row>,
    r: u32,
    before: Option<Wire>,
) -> Result<(), AllocError>
    ensures { OnOk result (rows.new.items ≡ rows.old.items ++ pass_row r before ∷ []) }
{
    match before {
        None => push_row(alloc, rows, Op::Zero, Wire::First(r), &[]),
        Some(before) => push_row(alloc, rows, Op::Buf, Wire::First(r), &[before]),
    }
}

/// Adds the row of what a register's first cell takes in unload cycles.
fn push_carry(
    alloc: Global,
    rows: &mut Vec<Row>,
    r: u32,
    before: Option<Wire>,
) -> Result<(), AllocError>
    ensures { OnOk result (rows.new.items ≡ rows.old.items ++ carry_row r before ∷ []) }
{
    match before {
        None => push_row(alloc, rows, Op::Zero, Wire::Carried(r), &[]),
        Some(before) => push_row(
            alloc,
            rows,
            Op::And,
            Wire::Carried(r),
            &[Wire::Shifting, before],
        ),
    }
}

/// Adds the rows of a register that is in no session.
fn push_idle(
    alloc: Global,
    rows: &mut Vec<Row>,
    r: u32,
    before: Option<Wire>,
) -> Result<(), AllocError>
    ensures { OnOk result (rows.new.items ≡ rows.old.items ++ idle_rows r before) }
{
    push_row(alloc, rows, Op::Buf, Wire::Latches(r), &[Wire::NotTest])?;
    push_row(alloc, rows, Op::Buf, Wire::Takes(r), &[Wire::Shifting])?;
    push_row(alloc, rows, Op::Buf, Wire::Codes(r), &[Wire::Running])?;
    push_pass(alloc, rows, r, before)
}

/// The rings of these sessions.
fn rings_of(alloc: Global, sessions: &[u32]) -> Result<Vec<Wire>, AllocError>
    ensures { IfOk result (λ rings. rings.items ≡ map Wire.Ring sessions.now) }
{
    let mut rings = Vec::new(alloc);
    'sessions: for session in sessions {
        rings.push(Wire::Ring(*session))?;
    }
    Ok(rings)
}

/// Adds the rows of what a register does in its sessions and in others.
fn push_modes(
    alloc: Global,
    rows: &mut Vec<Row>,
    r: u32,
    sessions: &[u32],
) -> Result<(), AllocError>
    ensures { OnOk result (rows.new.items ≡ rows.old.items ++ mode_rows r sessions.now) }
{
    let rings = rings_of(alloc, sessions)?;
    push_row(alloc, rows, Op::Or, Wire::On(r), &rings)?;
    push_row(
        alloc,
        rows,
        Op::And,
        Wire::Compacts(r),
        &[Wire::Running, Wire::On(r)],
    )?;
    push_row(
        alloc,
        rows,
        Op::Or,
        Wire::Latches(r),
        &[Wire::NotTest, Wire::Compacts(r)],
    )?;
    push_row(
        alloc,
        rows,
        Op::Or,
        Wire::Takes(r),
        &[Wire::Compacts(r), Wire::Shifting],
    )?;
    push_row(alloc, rows, Op::Not, Wire::Off(r), &[Wire::On(r)])?;
    push_row(
        alloc,
        rows,
        Op::And,
        Wire::Codes(r),
        &[Wire::Running, Wire::Off(r)],
    )
}

/// Adds the rows of what a register's first cell takes, where the register is in a session.
fn push_signing(
    alloc: Global,
    rows: &mut Vec<Row>,
    r: u32,
    before: Option<Wire>,
    mask: u32,
    qs: &[Wire],
) -> Result<(), AllocError>
    ensures { OnOk result (rows.new.items ≡ rows.old.items ++ sign_rows r before mask qs.now) }
{
    let tapped = picked(alloc, mask, qs)?;
    push_row(alloc, rows, Op::Xor, Wire::Feedback(r), &tapped)?;
    push_row(
        alloc,
        rows,
        Op::And,
        Wire::Signed(r),
        &[Wire::Compacts(r), Wire::Feedback(r)],
    )?;
    push_carry(alloc, rows, r, before)?;
    push_row(
        alloc,
        rows,
        Op::Or,
        Wire::First(r),
        &[Wire::Signed(r), Wire::Carried(r)],
    )
}

/// Adds the rows of a register, with its sessions, the cell before it, its mask and its cells' bits.
fn push_register(
    alloc: Global,
    rows: &mut Vec<Row>,
    r: u32,
    sessions: &[u32],
    before: Option<Wire>,
    mask: u32,
    qs: &[Wire],
) -> Result<(), AllocError>
    ensures { OnOk result (rows.new.items ≡ rows.old.items ++ rows_of_register r sessions.now before mask qs.now) }
{
    if sessions.is_empty() {
        return push_idle(alloc, rows, r, before);
    }
    push_modes(alloc, rows, r, sessions)?;
    push_signing(alloc, rows, r, before, mask, qs)
}

/// Adds the rows of all registers, with the sessions of each and the bits of all cells.
fn push_registers(
    alloc: Global,
    rows: &mut Vec<Row>,
    plan: &Plan,
    turns: &[Turns],
    qs: &[Wire],
) -> Result<(), AllocError>
    requires registers { length plan.now.registers < 2 ^ 32 }
    requires turns { AreSessionsOf plan.now turns.now }
    requires bits { qs.now ≡ qs_from 0 (chain plan.now) }
    ensures { OnOk result (rows.new.items ≡ rows.old.items ++ registers_from plan.now 0 0 None plan.now.registers) }
{
    let mut before = None;
    let mut rest = qs;
    'registers: for (r, register) in plan.registers.iter().enumerate() {
        let (own, later) = rest.split_at(register.cells.len());
        push_register(
            alloc,
            rows,
            r as u32,
            turns[r].as_slice(),
            before,
            register.mask,
            own,
        )?;
        before = last_or(own, before);
        rest = later;
    }
    Ok(())
}

/// The table of a plan: the controller's rows, and then those of each register.
pub fn control_rows(alloc: Global, plan: &Plan) -> Result<Vec<Row>, AllocError>
    requires numbers { HasNumbers plan.now }
    ensures rows { IfOk result (λ rows. rows.items ≡ control_rows plan.now) }
{
    let qs = chain_qs(alloc, plan)?;
    let turns = turns_of(alloc, plan)?;
    let mut rows = Vec::new(alloc);
    push_controller(alloc, &mut rows, plan, last_or(&qs, None))?;
    push_registers(alloc, &mut rows, plan, &turns, &qs)?;
    Ok(rows)
}
