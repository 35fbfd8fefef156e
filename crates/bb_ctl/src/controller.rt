//! The controller's rows.

ghost use Rattle.std.specs.Prelude.{◌≡◌, ◌++◌, ◌∷◌, [], ◌<◌, ◌^◌, ◌-◌, OnOk, IfOk, length};
ghost use Rattle.bb_base.specs.Bits.{picked};
ghost use Rattle.bb_terms.specs.OnBits.{shifted, last_of};
ghost use Rattle.bb_terms.specs.Controller.{word_from, word_rows, low_row, start_rows, feed_rows, phase_rows, cycle_rows, first_ring, middle_ring, last_ring, ring_rows, ring_rows_from, out_row, last_q, controller};

use crate::row::{Row, push_row};
use bb_base::Op;
use bb_terms::{Plan, Wire};
use std::alloc::{AllocError, Global};

/// The bits of the complete register.
fn word_bits(alloc: Global, degree: u32) -> Result<Vec<Wire>, AllocError>
    ensures { IfOk result (λ bits. bits.items ≡ word_from 0 degree) }
{
    let mut bits = Vec::new(alloc);
    'bits: for i in 0..degree {
        bits.push(Wire::Word(i))?;
    }
    Ok(bits)
}

/// The last bit of the complete register.
fn last_bit(degree: u32) -> Wire
    ensures { result ≡ last_of Wire.Test (word_from 0 degree) }
{
    if degree == 0 {
        return Wire::Test;
    }
    Wire::Word(degree - 1)
}

/// The wires at whose places a mask has a 1.
pub(crate) fn picked(alloc: Global, mask: u32, wires: &[Wire]) -> Result<Vec<Wire>, AllocError>
    ensures { IfOk result (λ taken. taken.items ≡ picked mask wires.now) }
{
    let mut taken = Vec::new(alloc);
    let mut rest = mask;
    'wires: for wire in wires {
        if rest % 2 == 1 {
            taken.push(*wire)?;
        }
        rest /= 2;
    }
    Ok(taken)
}

/// Adds the rows of a test's start.
fn push_start(alloc: Global, rows: &mut Vec<Row>) -> Result<(), AllocError>
    ensures { OnOk result (rows.new.items ≡ rows.old.items ++ start_rows) }
{
    push_row(alloc, rows, Op::Not, Wire::NotInit, &[Wire::Init])?;
    push_row(alloc, rows, Op::Not, Wire::NotTest, &[Wire::Test])?;
    push_row(alloc, rows, Op::And, Wire::Go, &[Wire::Test, Wire::NotInit])?;
    push_row(alloc, rows, Op::Not, Wire::NotGo, &[Wire::Go])
}

/// Adds the row that is 1 where all these bits are 0.
fn push_low(alloc: Global, rows: &mut Vec<Row>, bits: &[Wire]) -> Result<(), AllocError>
    ensures { OnOk result (rows.new.items ≡ rows.old.items ++ low_row bits.now ∷ []) }
{
    if bits.is_empty() {
        return push_row(alloc, rows, Op::One, Wire::Low, &[]);
    }
    push_row(alloc, rows, Op::Nor, Wire::Low, bits)
}

/// Adds the rows of what the complete register takes in.
fn push_feed(alloc: Global, rows: &mut Vec<Row>, degree: u32, mask: u32) -> Result<(), AllocError>
    ensures { OnOk result (rows.new.items ≡ rows.old.items ++ feed_rows mask (word_from 0 degree)) }
{
    let bits = word_bits(alloc, degree)?;
    let tapped = picked(alloc, mask, &bits)?;
    let low = word_bits(alloc, degree.saturating_sub(1))?;
    push_row(alloc, rows, Op::Xor, Wire::Parity, &tapped)?;
    push_low(alloc, rows, &low)?;
    push_row(alloc, rows, Op::Xor, Wire::Feed, &[Wire::Parity, Wire::Low])?;
    Ok(())
}

/// Adds the rows of what the complete register's bits take.
fn push_word(alloc: Global, rows: &mut Vec<Row>, degree: u32) -> Result<(), AllocError>
    ensures { OnOk result (rows.new.items ≡ rows.old.items ++ word_rows 0 (shifted Wire.Feed (word_from 0 degree))) }
{
    let mut before = Wire::Feed;
    'bits: for i in 0..degree {
        push_row(alloc, rows, Op::And, Wire::WordNext(i), &[Wire::Go, before])?;
        before = Wire::Word(i);
    }
    Ok(())
}

/// Adds the rows of the phase.
fn push_phase(alloc: Global, rows: &mut Vec<Row>, last: Wire) -> Result<(), AllocError>
    ensures { OnOk result (rows.new.items ≡ rows.old.items ++ phase_rows last) }
{
    push_row(alloc, rows, Op::And, Wire::Wrap, &[last, Wire::Low])?;
    push_row(
        alloc,
        rows,
        Op::Xor,
        Wire::PhaseTurned,
        &[Wire::Phase, Wire::Wrap],
    )?;
    push_row(
        alloc,
        rows,
        Op::And,
        Wire::PhaseNext,
        &[Wire::Go, Wire::PhaseTurned],
    )?;
    push_row(
        alloc,
        rows,
        Op::And,
        Wire::Advance,
        &[Wire::Phase, Wire::Wrap],
    )?;
    push_row(alloc, rows, Op::Not, Wire::NotAdvance, &[Wire::Advance])
}

/// Adds the rows of the last ring, which is 1 behind all sessions.
fn push_last_ring(alloc: Global, rows: &mut Vec<Row>, before: u32) -> Result<(), AllocError>
    requires { before < 2 ^ 32 - 1 }
    ensures { OnOk result (rows.new.items ≡ rows.old.items ++ last_ring before) }
{
    let s = before + 1;
    push_row(
        alloc,
        rows,
        Op::And,
        Wire::RingMoved(s),
        &[Wire::Ring(before), Wire::Advance],
    )?;
    push_row(
        alloc,
        rows,
        Op::Or,
        Wire::RingOr(s),
        &[Wire::Ring(s), Wire::RingMoved(s)],
    )?;
    push_row(
        alloc,
        rows,
        Op::And,
        Wire::RingNext(s),
        &[Wire::Go, Wire::RingOr(s)],
    )
}

/// Adds the rows of the ring behind another, which is 1 in a session.
fn push_ring(alloc: Global, rows: &mut Vec<Row>, before: u32) -> Result<(), AllocError>
    requires { before < 2 ^ 32 - 1 }
    ensures { OnOk result (rows.new.items ≡ rows.old.items ++ middle_ring before) }
{
    let s = before + 1;
    push_row(
        alloc,
        rows,
        Op::And,
        Wire::RingKept(s),
        &[Wire::Ring(s), Wire::NotAdvance],
    )?;
    push_row(
        alloc,
        rows,
        Op::And,
        Wire::RingMoved(s),
        &[Wire::Ring(before), Wire::Advance],
    )?;
    push_row(
        alloc,
        rows,
        Op::Or,
        Wire::RingOr(s),
        &[Wire::RingKept(s), Wire::RingMoved(s)],
    )?;
    push_row(
        alloc,
        rows,
        Op::And,
        Wire::RingNext(s),
        &[Wire::Go, Wire::RingOr(s)],
    )
}

/// Adds the rows of the first ring, which is 1 from a test's start on.
fn push_first_ring(alloc: Global, rows: &mut Vec<Row>) -> Result<(), AllocError>
    ensures { OnOk result (rows.new.items ≡ rows.old.items ++ first_ring) }
{
    push_row(
        alloc,
        rows,
        Op::And,
        Wire::RingKept(0),
        &[Wire::Ring(0), Wire::NotAdvance],
    )?;
    push_row(
        alloc,
        rows,
        Op::Or,
        Wire::RingNext(0),
        &[Wire::NotGo, Wire::RingKept(0)],
    )
}

/// Adds the rows of the rings behind the first one.
fn push_later_rings(alloc: Global, rows: &mut Vec<Row>, more: u32) -> Result<(), AllocError>
    requires { more < 2 ^ 32 - 1 }
    ensures { OnOk result (rows.new.items ≡ rows.old.items ++ ring_rows_from 0 more) }
{
    'rings: for before in 0..more {
        push_ring(alloc, rows, before)?;
    }
    push_last_ring(alloc, rows, more)
}

/// Adds the rows of all rings.
fn push_rings(alloc: Global, rows: &mut Vec<Row>, sessions: u32) -> Result<(), AllocError>
    ensures { OnOk result (rows.new.items ≡ rows.old.items ++ ring_rows sessions) }
{
    if sessions == 0 {
        return push_row(alloc, rows, Op::One, Wire::RingNext(0), &[]);
    }
    push_first_ring(alloc, rows)?;
    push_later_rings(alloc, rows, sessions - 1)
}

/// Adds the rows of what a cycle is.
fn push_cycle(alloc: Global, rows: &mut Vec<Row>, sessions: u32) -> Result<(), AllocError>
    ensures { OnOk result (rows.new.items ≡ rows.old.items ++ cycle_rows sessions) }
{
    push_row(alloc, rows, Op::Not, Wire::NotOver, &[Wire::Ring(sessions)])?;
    push_row(alloc, rows, Op::And, Wire::Live, &[Wire::Go, Wire::NotOver])?;
    push_row(alloc, rows, Op::Not, Wire::NotPhase, &[Wire::Phase])?;
    push_row(
        alloc,
        rows,
        Op::And,
        Wire::Running,
        &[Wire::Live, Wire::NotPhase],
    )?;
    push_row(
        alloc,
        rows,
        Op::And,
        Wire::Shifting,
        &[Wire::Live, Wire::Phase],
    )?;
    push_row(
        alloc,
        rows,
        Op::And,
        Wire::Done,
        &[Wire::Go, Wire::Ring(sessions)],
    )
}

/// Adds the row of what the chain shifts out, with its last cell's bit.
fn push_out(alloc: Global, rows: &mut Vec<Row>, last: Option<Wire>) -> Result<(), AllocError>
    ensures { OnOk result (rows.new.items ≡ rows.old.items ++ out_row last ∷ []) }
{
    match last {
        None => push_row(alloc, rows, Op::Zero, Wire::So, &[]),
        Some(last) => push_row(alloc, rows, Op::And, Wire::So, &[Wire::Shifting, last]),
    }
}

/// Adds the rows of the complete register and of the phase.
fn push_walk(alloc: Global, rows: &mut Vec<Row>, degree: u32, mask: u32) -> Result<(), AllocError>
    ensures { OnOk result (rows.new.items ≡ rows.old.items ++ (start_rows ++ (feed_rows mask (word_from 0 degree) ++ (word_rows 0 (shifted Wire.Feed (word_from 0 degree)) ++ phase_rows (last_of Wire.Test (word_from 0 degree)))))) }
{
    push_start(alloc, rows)?;
    push_feed(alloc, rows, degree, mask)?;
    push_word(alloc, rows, degree)?;
    push_phase(alloc, rows, last_bit(degree))
}

/// Adds the rows of the sessions and of the end of the chain.
fn push_sessions(
    alloc: Global,
    rows: &mut Vec<Row>,
    sessions: u32,
    last: Option<Wire>,
) -> Result<(), AllocError>
    ensures { OnOk result (rows.new.items ≡ rows.old.items ++ (ring_rows sessions ++ (cycle_rows sessions ++ out_row last ∷ []))) }
{
    push_rings(alloc, rows, sessions)?;
    push_cycle(alloc, rows, sessions)?;
    push_out(alloc, rows, last)
}

/// Adds the controller's rows, with the bit of the chain's last cell.
pub(crate) fn push_controller(
    alloc: Global,
    rows: &mut Vec<Row>,
    plan: &Plan,
    last: Option<Wire>,
) -> Result<(), AllocError>
    requires sessions { length plan.now.sessions < 2 ^ 32 }
    requires last { last ≡ last_q plan.now }
    ensures { OnOk result (rows.new.items ≡ rows.old.items ++ controller plan.now) }
{
    push_walk(alloc, rows, plan.degree, plan.mask)?;
    push_sessions(alloc, rows, plan.sessions.len() as u32, last)
}
