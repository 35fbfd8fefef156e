//! The flip-flops of the written netlist, and its added wires.

ghost use Rattle.std.specs.Prelude.{◌≡◌, ◌<◌, ◌+◌, ◌^◌, ◌++◌, IfOk, OnOk, filter, map, length};
ghost use Rattle.bb_terms.specs.Plan.{chain};
ghost use Rattle.bb_ctl.specs.Numbers.{HasNumbers};
ghost use Rattle.bb_written.specs.Cells.{word_flops, ring_flops, cell_flops, flops};
ghost use Rattle.bb_written.specs.Written.{is_inner};

use crate::cells::q_of;
use bb_ctl::Row;
use bb_terms::{Cell, Plan, Wire};
use std::alloc::{AllocError, Global};
use std::marker::Model;

/// A flip-flop over symbols.
#[derive(Clone, Copy)]
pub struct FlopRow {
    pub q: Wire,
    pub d: Wire,
}

impl Model for FlopRow {
    ghost use Rattle.bb_base.specs.Net.{Flop};
    ghost use Rattle.bb_terms.specs.declared.wire.Wire.{Wire};

    ghost Value = { Flop Wire };

    ghost view = { λ f. record { q = f.q; d = f.d } };

    ghost inverse = { λ f. record { q = f.q; d = f.d } };
}

/// AddsAll the flip-flops of the complete register.
fn push_words(flops: &mut Vec<FlopRow>, degree: u32) -> Result<(), AllocError>
    ensures { OnOk result (flops.new.items ≡ flops.old.items ++ word_flops 0 degree) }
{
    'bits: for i in 0..degree {
        flops.push(FlopRow {
            q: Wire::Word(i),
            d: Wire::WordNext(i),
        })?;
    }
    Ok(())
}

/// AddsAll the flip-flops of the rings, of which there is one more than sessions.
fn push_rings(flops: &mut Vec<FlopRow>, sessions: u32) -> Result<(), AllocError>
    ensures { OnOk result (flops.new.items ≡ flops.old.items ++ ring_flops 0 sessions) }
{
    'rings: for s in 0..sessions {
        flops.push(FlopRow {
            q: Wire::Ring(s),
            d: Wire::RingNext(s),
        })?;
    }
    flops.push(FlopRow {
        q: Wire::Ring(sessions),
        d: Wire::RingNext(sessions),
    })?;
    Ok(())
}

/// AddsAll the flip-flops of the cells.
fn push_cells(flops: &mut Vec<FlopRow>, cells: &[Cell]) -> Result<(), AllocError>
    requires { length cells.now < 2 ^ 32 }
    ensures { OnOk result (flops.new.items ≡ flops.old.items ++ cell_flops 0 cells.now) }
{
    'cells: for (i, cell) in cells.iter().enumerate() {
        let i = i as u32;
        flops.push(FlopRow {
            q: q_of(i, *cell),
            d: Wire::Next(i),
        })?;
    }
    Ok(())
}

/// All flip-flops, where these are the cells of the chain.
pub(crate) fn flop_rows(
    alloc: Global,
    plan: &Plan,
    cells: &[Cell],
) -> Result<Vec<FlopRow>, AllocError>
    requires cells { cells.now ≡ chain plan.now }
    requires few_cells { length cells.now < 2 ^ 32 }
    requires few_sessions { length plan.now.sessions < 2 ^ 32 }
    ensures { IfOk result (λ rows. rows.items ≡ flops plan.now) }
{
    let mut rows = Vec::new(alloc);
    push_words(&mut rows, plan.degree)?;
    rows.push(FlopRow {
        q: Wire::Phase,
        d: Wire::PhaseNext,
    })?;
    push_rings(&mut rows, plan.sessions.len() as u32)?;
    push_cells(&mut rows, cells)?;
    Ok(rows)
}

/// Whether the net is an added one and no port.
fn is_inner(wire: Wire) -> bool
    ensures { result ≡ is_inner wire }
{
    !matches!(
        wire,
        Wire::Kept(_) | Wire::Test | Wire::Init | Wire::So | Wire::Done
    )
}

/// AddsAll the inner wires that rows drive.
pub(crate) fn push_outs(wires: &mut Vec<Wire>, rows: &[Row]) -> Result<(), AllocError>
    ensures { OnOk result (wires.new.items ≡ wires.old.items ++ filter is_inner (map (λ g. g.out) rows.now)) }
{
    'rows: for row in rows {
        if is_inner(row.out) {
            wires.push(row.out)?;
        }
    }
    Ok(())
}

/// AddsAll the inner wires that are bits of flip-flops.
pub(crate) fn push_qs(wires: &mut Vec<Wire>, flops: &[FlopRow]) -> Result<(), AllocError>
    ensures { OnOk result (wires.new.items ≡ wires.old.items ++ filter is_inner (map (λ f. f.q) flops.now)) }
{
    'flops: for flop in flops {
        if is_inner(flop.q) {
            wires.push(flop.q)?;
        }
    }
    Ok(())
}
