//! Rows of the table, and the wires that a mask picks.

ghost use Rattle.std.specs.Prelude.{◌≡◌, ◌++◌, ◌∷◌, [], OnOk, IfOk};
ghost use Rattle.bb_base.specs.Bits.{picked};
ghost use Rattle.bb_terms.specs.Controller.{gate_row};
ghost use Rattle.bb_written.specs.Cells.{xor_row};

use bb_base::Op;
use bb_ctl::Row;
use bb_terms::Wire;
use smallvec::SmallVec;
use std::alloc::{AllocError, Global};

/// AddsAll a row.
pub(crate) fn push_row(
    alloc: Global,
    rows: &mut Vec<Row>,
    op: Op,
    out: Wire,
    ins: &[Wire],
) -> Result<(), AllocError>
    ensures { OnOk result (rows.new.items ≡ rows.old.items ++ gate_row op out ins.now ∷ []) }
{
    let ins = SmallVec::from_slice(alloc, ins)?;
    rows.push(Row { op, out, ins })?;
    Ok(())
}

/// AddsAll an exclusive or, which of no wires is the constant 0.
pub(crate) fn push_xor(
    alloc: Global,
    rows: &mut Vec<Row>,
    out: Wire,
    ins: &[Wire],
) -> Result<(), AllocError>
    ensures { OnOk result (rows.new.items ≡ rows.old.items ++ xor_row out ins.now ∷ []) }
{
    if ins.is_empty() {
        return push_row(alloc, rows, Op::Zero, out, &[]);
    }
    push_row(alloc, rows, Op::Xor, out, ins)
}

/// The wires at whose places a mask has a 1.
pub(crate) fn picked(alloc: Global, mask: u32, wires: &[Wire]) -> Result<Vec<Wire>, AllocError>
    ensures { IfOk result (λ taken. taken.items ≡ picked mask wires.now) }
{
    let mut taken = Vec::new(alloc);
    let mut rest = mask;
    'wires: for wire in wires {
        if rest % 2 == 1 {
            taken.push(*wire)?;
        }
        rest /= 2;
    }
    Ok(taken)
}
