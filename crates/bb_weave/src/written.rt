//! The netlist with its self-test, from its first variable to its gates' order.

ghost use Rattle.std.specs.Prelude.{◌≡◌, ◌≤◌, ◌<◌, ◌^◌, ◌↔◌, ◌++◌, ℕ, IfOk, OnOk, IsSome, length, map};
ghost use Rattle.std.specs.List.{range_with_len};
ghost use Rattle.bb_base.specs.Variables.{bit_count};
ghost use Rattle.bb_base.specs.Net.{Netlist as NetlistValue, driven, times, renamed_gate, renamed_flop};
ghost use Rattle.bb_base.specs.Order.{HasOrder, IsOrder};
ghost use Rattle.bb_base.specs.Named.{IsNamed, IsConsistent, IsByBits};
ghost use Rattle.bb_base.specs.Building.{with_gates, with_flops};
ghost use Rattle.bb_net.specs.Sites.{sited};
ghost use Rattle.bb_terms.specs.Plan.{chain};
ghost use Rattle.bb_terms.specs.Valid.{IsValidPlan, IsValidFor};
ghost use Rattle.bb_terms.specs.Reads.{qs_from};
ghost use Rattle.bb_terms.specs.Registers.{control_rows};
ghost use Rattle.bb_terms.specs.Numbering.{net_at};
ghost use Rattle.bb_written.specs.Written.{written};
ghost use Rattle.bb_normal.specs.Normal.{Normal};
ghost use Rattle.bb_ctl.specs.OwnNames.{HasOwnNames};
ghost use Rattle.bb_weave.specs.Woven.{AreNetsOf};
ghost use Rattle.bb_weave.specs.Filling.{CanFill};

use bb_base::{NetFault, NetId};
use bb_ctl::{add_rows, lines};
use bb_lay::{Rows, add_flops, lay_written};
use bb_net::{Builder, Named};
use bb_netlist::{Order, OrderFault, find_order};
use bb_terms::{Valid, Wire};
use std::alloc::{AllocError, Global};

/// A netlist with its self-test, and where the original's nets and the cells are in it.
#[derive(Drop)]
pub struct Woven {
    pub named: Named,
    /// The order of its gates.
    pub order: Order,
    /// For each net of the original, its net.
    pub kept: Vec<NetId>,
    /// For each cell of the chain, the net of its bit.
    pub cells: Vec<NetId>,
}

/// Adds all gates and flip-flops, and answers the nets of the cells' bits.
///
/// After an error some of them may stand.
fn fill(
    alloc: Global,
    builder: &mut Builder,
    kept: &[NetId],
    rows: &Rows,
    valid: &Valid,
) -> Result<Vec<NetId>, AllocError>
    requires valid { (a : NetlistValue ℕ) × IsValidPlan a valid.now.plan }
    requires can { CanFill builder.old kept.now valid.now.plan rows.now }
    ensures filled { OnOk result (builder.new ≡ with_flops (with_gates builder.old (map (renamed_gate (net_at builder.old kept.now)) (rows.now.kept.items ++ (control_rows valid.now.plan ++ rows.now.cells.items))))
        (map (renamed_flop (net_at builder.old kept.now)) rows.now.flops.items)) }
    ensures cells { IfOk result (λ cells. cells.items ≡ map (net_at builder.old kept.now) (qs_from 0 (chain valid.now.plan))) }
{
    add_rows(alloc, builder, kept, &rows.kept)?;
    let nets = lines(alloc, valid, kept, builder)?;
    add_rows(alloc, builder, kept, &rows.cells)?;
    add_flops(alloc, builder, kept, &rows.flops)?;
    Ok(nets.cells)
}

/// Want of memory, where a builder's fault is that.
fn out_of_memory(fault: NetFault) -> AllocError
    requires { fault ≡ NetFault.NoMemory }
{
    match fault {
        NetFault::NoMemory => AllocError,
        _ => unreachable!(),
    }
}

/// The netlist of a builder in which each net is driven once.
fn finished(builder: Builder) -> Result<Named, AllocError>
    requires clock { IsSome builder.clock ↔ (0 < length builder.netlist.flops) }
    requires once { IsConsistent builder → (net : ℕ) → net < length builder.names → times net (driven builder.netlist) ≡ 1 }
    ensures named { IfOk result (λ named. named ≡ builder) }
    ensures valid { OnOk result (IsNamed builder) }
{
    match builder.finish() {
        Ok(named) => Ok(named),
        Err(fault) => Err(out_of_memory(fault)),
    }
}

/// Want of memory, where no loop stands in the way of an order.
fn no_loop(fault: OrderFault) -> AllocError
    requires { fault ≡ OrderFault.NoMemory }
{
    match fault {
        OrderFault::NoMemory => AllocError,
        _ => unreachable!(),
    }
}

/// The order of a netlist's gates, which have one.
fn order_of(alloc: Global, named: &Named) -> Result<Order, AllocError>
    requires { HasOrder named.now.netlist.gates }
    ensures { IfOk result (IsOrder named.now.netlist.gates) }
{
    match find_order(alloc, named.netlist()) {
        Ok(order) => Ok(order),
        Err(fault) => Err(no_loop(fault)),
    }
}

/// Weaves the self-test of a valid plan into a netlist.
///
/// Only memory can be wanted: a valid plan's written netlist always is one.
pub fn weave(alloc: Global, named: &Named, valid: &Valid) -> Result<Woven, AllocError>
    requires valid { IsValidFor named.now.netlist valid.now }
    requires own { HasOwnNames named.now }
    requires few { bit_count named.now.variables ≤ 2097152 }
    ensures written { IfOk result (λ w. sited w.named ≡ written named.now valid.now.plan) }
    ensures order { IfOk result (λ w. IsOrder w.named.netlist.gates w.order) }
    ensures bits { IfOk result (λ w. bit_count w.named.variables ≤ 134217728) }
    ensures by_bits { IfOk result (λ w. IsByBits w.named) }
    ensures kept { IfOk result (λ w. AreNetsOf named.now w.named (map Wire.Kept (range_with_len 0 (length named.now.names))) w.kept.items) }
    ensures cells { IfOk result (λ w. AreNetsOf named.now w.named (qs_from 0 (chain valid.now.plan)) w.cells.items) }
    ensures normal { IfOk result (λ w. Normal (sited named.now).netlist (sited w.named).netlist) }
{
    // `netlist` ensures that the original is a named netlist.
    let _original = named.netlist();
    let laid = lay_written(alloc, named, valid)?;
    let mut builder = laid.builder;
    let cells = fill(alloc, &mut builder, &laid.kept, &laid.rows, valid)?;
    let woven = finished(builder)?;
    let order = order_of(alloc, &woven)?;
    Ok(Woven {
        named: woven,
        order,
        kept: laid.kept,
        cells,
    })
}
