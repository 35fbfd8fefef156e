// Plans of the half adder and of small netlists: nets are numbered in the order in which the text declares them.

ghost use Rattle.bb_base.specs.Order.{IsOrder};

use crate::netlists::{HALF, TOGGLE, read};
use bb_base::{NetId, Netlist};
use bb_netlist::Order;
use bb_plan::validate;
use bb_terms::{Cell, Kind, Plan, PlanFault, Register, Segment, Session};
use std::alloc::{AllocError, Global};

/// A cell's kind, net and column.
pub(crate) type Row = (Kind, u32, u32);

/// A register of one or two cells, with their least full mask.
pub(crate) fn register(alloc: Global, rows: &[Row]) -> Result<Register, AllocError> {
    let mut cells = Vec::new(alloc);
    for (kind, net, column) in rows {
        cells.push(Cell {
            kind: *kind,
            net: NetId(*net),
            column: *column,
        })?;
    }
    let mask = if rows.len() == 1 { 1 } else { 3 };
    Ok(Register { mask, cells })
}

/// A plan of degree 2 with these registers and one session.
fn plan(
    alloc: Global,
    width: u32,
    mask: u32,
    rows: &[&[Row]],
    compact: &[u32],
) -> Result<Plan, AllocError> {
    let mut registers = Vec::new(alloc);
    for cells in rows {
        registers.push(register(alloc, cells)?)?;
    }
    let mut sessions = Vec::new(alloc);
    sessions.push(Session {
        compact: Vec::from_slice(alloc, compact)?,
    })?;
    Ok(Plan {
        width,
        degree: 2,
        mask,
        registers,
        sessions,
    })
}

/// The cells, leaves and duals of segments, one after another.
fn numbers(alloc: Global, segments: &[Segment]) -> Result<Vec<u32>, AllocError> {
    let mut numbers = Vec::new(alloc);
    for segment in segments {
        numbers.push(segment.cell)?;
        numbers.extend_from_slice(&segment.leaves)?;
        numbers.extend_from_slice(&segment.duals)?;
    }
    Ok(numbers)
}

/// The numbers of the segments of a plan that is valid for a netlist, or the rule that fails and its place.
fn judged_in(
    alloc: Global,
    netlist: &Netlist,
    order: &Order,
    plan: Plan,
) -> Option<Result<Vec<u32>, (u8, u32)>>
    requires { IsOrder netlist.now.gates order.now }
{
    match validate(alloc, netlist, order, plan) {
        Ok(valid) => Some(Ok(numbers(alloc, valid.segments()).ok()?)),
        Err(PlanFault::Rule { number, place }) => Some(Err((number, place))),
        Err(PlanFault::NoMemory) => None,
    }
}

/// The same of a text's netlist.
fn judged(alloc: Global, text: &str, plan: Plan) -> Option<Result<Vec<u32>, (u8, u32)>> {
    let (named, order) = read(alloc, text)?;
    judged_in(alloc, named.netlist(), &order, plan)
}

/// What is judged of the half adder with this width, this mask, the second source's column, and the registers of the session.
fn half(
    alloc: Global,
    width: u32,
    mask: u32,
    column: u32,
    compact: &[u32],
) -> Option<Result<Vec<u32>, (u8, u32)>> {
    let sources = [(Kind::Input, 0, 1), (Kind::Input, 1, column)];
    let observers = [(Kind::Output, 2, 0), (Kind::Output, 3, 0)];
    match plan(alloc, width, mask, &[&sources, &observers], compact) {
        Ok(plan) => judged(alloc, HALF, plan),
        Err(_) => None,
    }
}

/// What is judged of the flip-flop with these registers.
fn toggle(alloc: Global, rows: &[&[Row]], compact: &[u32]) -> Option<Result<Vec<u32>, (u8, u32)>> {
    match plan(alloc, 2, 3, rows, compact) {
        Ok(plan) => judged(alloc, TOGGLE, plan),
        Err(_) => None,
    }
}

#[test]
fn a_valid_plan_has_its_segments_with_their_duals(rt: HostRuntime) {
    match half(rt.alloc(), 2, 3, 2, &[1]) {
        Some(Ok(numbers)) => assert!(rt;
            numbers.as_slice() == [2, 0, 1, 1, 2, 3, 0, 1, 1, 2].as_slice()
        ),
        _ => panic!(rt; "no segments"),
    }
}

#[test]
fn the_first_rule_that_fails_is_answered_with_its_place(rt: HostRuntime) {
    let rows: [(u32, u32, u32, &[u32], (u8, u32)); 4] = [
        (2, 2, 2, &[1], (14, 3)),
        (2, 3, 1, &[1], (13, 2)),
        (1, 3, 2, &[1], (11, 2)),
        (2, 3, 2, &[1, 1], (7, 0)),
    ];
    for (width, mask, column, compact, wanted) in rows {
        match half(rt.alloc(), width, mask, column, compact) {
            Some(Err(fault)) => assert!(rt; fault == wanted),
            _ => panic!(rt; "no fault"),
        }
    }
}

#[test]
fn a_flip_flop_that_reads_itself_is_split_and_watched(rt: HostRuntime) {
    match toggle(
        rt.alloc(),
        &[&[(Kind::Split, 0, 1)], &[(Kind::Watch, 0, 0)]],
        &[1],
    ) {
        Some(Ok(numbers)) => assert!(rt; numbers.as_slice() == [1, 0, 1].as_slice()),
        _ => panic!(rt; "no segments"),
    }
    match toggle(rt.alloc(), &[&[(Kind::State, 0, 1)]], &[0]) {
        Some(Err(fault)) => assert!(rt; fault == (12, 0)),
        _ => panic!(rt; "no fault"),
    }
}
