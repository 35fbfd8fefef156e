ghost use Rattle.std.specs.Prelude.{◌≡◌, ◌++◌, ◌∷◌, [], OnOk};
ghost use Rattle.bb_terms.specs.Controller.{gate_row};

use bb_base::Op;
use bb_terms::Wire;
use smallvec::SmallVec;
use std::alloc::{AllocError, Global};
use std::marker::Model;

/// A row of a table: a gate over symbols.
#[derive(Drop)]
pub struct Row {
    pub op: Op,
    pub out: Wire,
    pub ins: SmallVec<Wire, 4>,
}

impl Model for Row {
    ghost use Rattle.bb_base.specs.Net.{Gate};
    ghost use Rattle.bb_terms.specs.declared.wire.Wire.{Wire};

    ghost Value = { Gate Wire };

    ghost view = { λ r. record { op = r.op; out = r.out; ins = r.ins.items } };
}

/// Adds a row.
pub(crate) fn push_row(
    alloc: Global,
    rows: &mut Vec<Row>,
    op: Op,
    out: Wire,
    ins: &[Wire],
) -> Result<(), AllocError>
    ensures { OnOk result (rows.new.items ≡ rows.old.items ++ gate_row op out ins.now ∷ []) }
{
    let ins = SmallVec::from_slice(alloc, ins)?;
    rows.push(Row { op, out, ins })?;
    Ok(())
}
