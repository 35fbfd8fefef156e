// What is chosen for a netlist's text, beside what is expected.

ghost use Rattle.std.specs.Prelude.{◌≤◌};
ghost use Rattle.bb_base.specs.Order.{IsOrder};
ghost use Rattle.bb_choose.specs.Arranged.{AreInRange};

use crate::netlists::read;
use bb_base::BitName;
use bb_choose::{ChoiceFault, Chosen, Settings, choose};
use bb_net::Named;
use bb_netlist::Order;
use bb_terms::{Kind, Plan, Register};
use std::alloc::Global;

/// What the program's options are where none is given, but for the width and the bounds of degrees.
pub(crate) fn settings(width: u32, min_degree: u32, max_degree: u32) -> Settings
    requires width_least { 2 ≤ width }
    requires width_most { width ≤ 12 }
    requires degree_least { 1 ≤ min_degree }
    requires degrees { min_degree ≤ max_degree }
    requires degree_most { max_degree ≤ 20 }
    ensures { AreInRange result }
{
    Settings {
        width,
        min_degree,
        max_degree,
        max_cycles: 16_777_216,
        register: 8,
    }
}

/// What is chosen for a netlist, or why nothing is; none where it has too many nets.
pub(crate) fn choice(
    alloc: Global,
    named: &Named,
    order: &Order,
    settings: Settings,
) -> Option<Result<Chosen, ChoiceFault>>
    requires order { IsOrder named.now.netlist.gates order.now }
    requires settings { AreInRange settings }
{
    let netlist = named.netlist();
    if netlist.nets() > 2_097_152 {
        return None;
    }
    Some(choose(alloc, netlist, order, &settings))
}

/// Why nothing is chosen for a text.
pub(crate) fn fault_of(alloc: Global, text: &str, settings: Settings) -> Option<ChoiceFault>
    requires { AreInRange settings }
{
    let (named, order) = read(alloc, text)?;
    match choice(alloc, &named, &order, settings)? {
        Ok(_) => None,
        Err(fault) => Some(fault),
    }
}

/// How large what is chosen for a netlist is: its cells, registers, sessions, degree and cycles.
fn size_in(alloc: Global, named: &Named, order: &Order, settings: Settings) -> Option<[u64; 5]>
    requires order { IsOrder named.now.netlist.gates order.now }
    requires settings { AreInRange settings }
{
    let chosen = choice(alloc, named, order, settings)?.ok()?;
    let plan = &chosen.plan;
    Some([
        plan.cells(),
        plan.registers.len() as u64,
        plan.sessions.len() as u64,
        plan.degree as u64,
        chosen.cycles,
    ])
}

/// The same for a text's netlist.
pub(crate) fn size_of(alloc: Global, text: &str, settings: Settings) -> Option<[u64; 5]>
    requires { AreInRange settings }
{
    let (named, order) = read(alloc, text)?;
    size_in(alloc, &named, &order, settings)
}

/// A cell's kind, the number of its net's variable, and its column.
pub(crate) type Row = (Kind, u32, u32);

/// A register has this mask and these cells.
fn has_cells(named: &Named, register: &Register, mask: u32, rows: &[Row]) -> bool {
    register.mask == mask
        && register.cells.len() == rows.len()
        && register.cells.iter().zip(rows).all(|(cell, row)| {
            let bit = BitName {
                variable: row.1,
                place: 0,
            };
            cell.kind == row.0 && named.find(bit) == Some(cell.net) && cell.column == row.2
        })
}

/// The registers of a plan have these masks and cells.
fn has_registers(named: &Named, plan: &Plan, rows: &[(u32, &[Row])]) -> bool {
    plan.registers.len() == rows.len()
        && plan
            .registers
            .iter()
            .zip(rows)
            .all(|(register, row)| has_cells(named, register, row.0, row.1))
}

/// These registers compact in the sessions of a plan.
fn has_sessions(plan: &Plan, rows: &[&[u32]]) -> bool {
    plan.sessions.len() == rows.len()
        && plan
            .sessions
            .iter()
            .zip(rows)
            .all(|(session, row)| session.compact.as_slice() == *row)
}

/// A plan has this degree with its mask, these registers and these sessions.
fn is_plan(
    named: &Named,
    plan: &Plan,
    code: (u32, u32),
    registers: &[(u32, &[Row])],
    sessions: &[&[u32]],
) -> bool {
    (plan.degree, plan.mask) == code
        && has_registers(named, plan, registers)
        && has_sessions(plan, sessions)
}

/// The plan that is chosen for a netlist.
fn plan_in(alloc: Global, named: &Named, order: &Order, settings: Settings) -> Option<Plan>
    requires order { IsOrder named.now.netlist.gates order.now }
    requires settings { AreInRange settings }
{
    Some(choice(alloc, named, order, settings)?.ok()?.plan)
}

/// What is chosen for a text has the width of the settings, this degree with its mask, these registers and these sessions.
pub(crate) fn is_chosen(
    alloc: Global,
    text: &str,
    settings: Settings,
    code: (u32, u32),
    registers: &[(u32, &[Row])],
    sessions: &[&[u32]],
) -> Option<bool>
    requires { AreInRange settings }
{
    let (named, order) = read(alloc, text)?;
    let plan = plan_in(alloc, &named, &order, settings)?;
    Some(plan.width == settings.width && is_plan(&named, &plan, code, registers, sessions))
}
