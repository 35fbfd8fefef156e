//! How the bits of all nets are computed.

ghost use Rattle.std.specs.Prelude.{◌≡◌, ◌≢◌, ◌<◌, ◌≤◌, ◌^◌, ℕ, true, false, None, length, map, All, IfOk};
ghost use Rattle.bb_base.specs.Net.{times};
ghost use Rattle.bb_base.specs.Order.{IsOrder};
ghost use Rattle.bb_terms.specs.Valid.{IsValidPlan};
ghost use Rattle.bb_sign.specs.Bits.{noted_column};
ghost use Rattle.bb_sign.specs.Evaluation.{EvaluationValue, AreNotedSources, AreOpenGates, IsEvaluation};

use crate::columns::columns_of;
use bb_base::{Gate, Netlist};
use bb_netlist::Order;
use bb_terms::Plan;
use smallvec::SmallVec;
use std::alloc::{AllocError, Global};
use std::marker::Model;

/// Nets whose bits come from columns, their columns, and the gates of the other nets, in the order in which they are evaluated.
#[derive(Drop)]
pub(crate) struct Evaluation {
    pub nets: Vec<u32>,
    pub columns: Vec<u32>,
    pub gates: Vec<Gate>,
}

impl Model for Evaluation {
    ghost use Rattle.bb_sign.specs.Evaluation.{EvaluationValue};

    ghost Value = { EvaluationValue };

    ghost view = { λ e. record { nets = e.nets.items; columns = e.columns.items; gates = e.gates.items } };
}

/// The nets with a column, and their columns.
#[derive(Drop)]
struct Sources {
    nets: Vec<u32>,
    columns: Vec<u32>,
}

/// The nets for which a table has a column.
fn sources_of(alloc: Global, table: &[Option<u32>]) -> Result<Sources, AllocError>
    requires { length table.now ≤ 2 ^ 32 }
    ensures { IfOk result (λ sources. AreNotedSources table.now sources.nets.items sources.columns.items) }
{
    let mut nets = Vec::new(alloc);
    let mut columns = Vec::new(alloc);
    'nets: for (net, column) in table.iter().enumerate() {
        if let Some(column) = column {
            nets.push(net as u32)?;
            columns.push(*column)?;
        }
    }
    Ok(Sources { nets, columns })
}

/// The same gate.
fn copied(alloc: Global, gate: &Gate) -> Result<Gate, AllocError>
    ensures { IfOk result (λ copy. copy ≡ gate.now) }
{
    let ins = SmallVec::from_slice(alloc, &gate.ins)?;
    Ok(Gate {
        op: gate.op,
        out: gate.out,
        ins,
    })
}

/// Whether a table has no column for the gate's net.
fn is_open(gate: &Gate, table: &[Option<u32>]) -> bool
    requires { gate.now.out < length table.now }
    ensures without { result ≡ true → noted_column table.now gate.now.out ≡ None }
    ensures with_one { result ≡ false → noted_column table.now gate.now.out ≢ None }
{
    table[gate.out.0 as usize].is_none()
}

/// The gates of nets without a column, in an order.
fn open_gates_of(
    alloc: Global,
    gates: &[Gate],
    order: &[u32],
    table: &[Option<u32>],
) -> Result<Vec<Gate>, AllocError>
    requires order { IsOrder gates.now order.now }
    requires once { (net : ℕ) → times net (map (λ g. g.out) gates.now) ≤ 1 }
    requires drives { All (λ g. g.out < length table.now) gates.now }
    ensures { IfOk result (λ open_gates. AreOpenGates gates.now table.now open_gates.items) }
{
    let mut open_gates = Vec::new(alloc);
    'numbers: for number in order {
        let gate = &gates[*number as usize];
        if is_open(gate, table) {
            open_gates.push(copied(alloc, gate)?)?;
        }
    }
    Ok(open_gates)
}

/// The evaluation of a valid plan's nets.
pub(crate) fn evaluation_of(
    alloc: Global,
    netlist: &Netlist,
    order: &Order,
    plan: &Plan,
) -> Result<Evaluation, AllocError>
    requires order { IsOrder netlist.now.gates order.now }
    requires valid { IsValidPlan netlist.now plan.now }
    ensures { IfOk result (IsEvaluation netlist.now plan.now) }
{
    let table = columns_of(alloc, netlist, plan)?;
    let sources = sources_of(alloc, &table)?;
    let gates = open_gates_of(alloc, netlist.gates(), order.gates(), &table)?;
    Ok(Evaluation {
        nets: sources.nets,
        columns: sources.columns,
        gates,
    })
}
