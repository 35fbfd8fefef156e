// Plans that are chosen for small netlists, from their cuts to their masks, and judged. Nets are numbered in the order in which a text
// declares them, and expected values are worked out by hand.

ghost use Rattle.std.specs.Prelude.{◌≡◌, ◌≤◌, ◌<◌, ◌+◌, ◌*◌, ◌^◌, IfOk, IfSome, length};
ghost use Rattle.std.specs.List.{AllByRecursion};
ghost use Rattle.bb_base.specs.Net.{driven};
ghost use Rattle.bb_base.specs.Order.{IsOrder};
ghost use Rattle.bb_code.specs.Segments.{IsSegment, sources_of};

use crate::columns::segment_of;
use crate::netlists::{HALF, SWAP, TOGGLE, read};
use arrayvec::ArrayVec;
use bb_base::{NetId, Netlist};
use bb_code::{Coded, degree};
use bb_gf2::taps;
use bb_netlist::Order;
use bb_plan::validate;
use bb_reg::{Draft, Grouped, cells, group, sessions};
use bb_segment::cuts;
use bb_terms::{Cell, Kind, Plan, Register, Session, Valid};
use std::alloc::{AllocError, Global};
use std::process::Abort;

/// The parity of 32 inputs by gates of two, in five levels.
const TREE: &str =
    "module tree (i, y);\ninput [0:31] i;\noutput y;\nwire [0:15] t;\nwire [0:7] u;\nwire [0:3] v;\nwire [0:1] w;\nxor (t[0], i[0], i[1]);\nxor (t[1], i[2], i[3]);\nxor (t[2], i[4], i[5]);\nxor (t[3], i[6], i[7]);\nxor (t[4], i[8], i[9]);\nxor (t[5], i[10], i[11]);\nxor (t[6], i[12], i[13]);\nxor (t[7], i[14], i[15]);\nxor (t[8], i[16], i[17]);\nxor (t[9], i[18], i[19]);\nxor (t[10], i[20], i[21]);\nxor (t[11], i[22], i[23]);\nxor (t[12], i[24], i[25]);\nxor (t[13], i[26], i[27]);\nxor (t[14], i[28], i[29]);\nxor (t[15], i[30], i[31]);\nxor (u[0], t[0], t[1]);\nxor (u[1], t[2], t[3]);\nxor (u[2], t[4], t[5]);\nxor (u[3], t[6], t[7]);\nxor (u[4], t[8], t[9]);\nxor (u[5], t[10], t[11]);\nxor (u[6], t[12], t[13]);\nxor (u[7], t[14], t[15]);\nxor (v[0], u[0], u[1]);\nxor (v[1], u[2], u[3]);\nxor (v[2], u[4], u[5]);\nxor (v[3], u[6], u[7]);\nxor (w[0], v[0], v[1]);\nxor (w[1], v[2], v[3]);\nxor (y, w[0], w[1]);\nendmodule\n";

/// A flip-flop's d is wide until the net `m`, which reads the flip-flop, is cut.
const LOOP: &str =
    "module row (ck, a, b, q);\ninput ck;\ninput a;\ninput b;\noutput q;\nwire m;\nwire d;\nand (m, q, a);\nxor (d, m, b);\ndff bt_f0 (ck, q, d);\nendmodule\n";

/// All cells in the order of the chain.
fn chain_of(alloc: Global, registers: &[Register]) -> Result<Vec<Cell>, AllocError> {
    let mut cells = Vec::new(alloc);
    for register in registers {
        cells.extend_from_slice(&register.cells)?;
    }
    Ok(cells)
}

/// The number of the source cell on a net.
fn source_on(cells: &[Cell], net: NetId) -> u32 {
    let mut number = 0u32;
    for cell in cells {
        if cell.kind.is_source() && cell.net == net {
            return number;
        }
        number = number.saturating_add(1);
    }
    number
}

/// The numbers of the source cells on some nets.
fn sources_on(alloc: Global, cells: &[Cell], nets: &[NetId]) -> Result<Vec<u32>, AllocError> {
    let mut numbers = Vec::new(alloc);
    for net in nets {
        numbers.push(source_on(cells, *net))?;
    }
    Ok(numbers)
}

/// The source cells of the leaves of each line.
fn segments_of(
    rt: &(impl Abort + AllocGlobal),
    cells: &[Cell],
    count: u32,
    lines: &[ArrayVec<NetId, 16>],
) -> Result<Vec<ArrayVec<u32, 16>>, AllocError>
    ensures { IfOk result (λ segments. AllByRecursion (IsSegment count) (sources_of segments.items)) }
{
    let mut segments = Vec::new(rt.alloc());
    for leaves in lines {
        let numbers = sources_on(rt.alloc(), cells, leaves)?;
        segments.push(segment_of(rt, count, &numbers))?;
    }
    Ok(segments)
}

/// The least mask of a degree; 0 where there is none.
fn mask_of(degree: usize) -> u32 {
    if degree == 0 || degree > 20 {
        return 0;
    }
    taps(degree as u32).unwrap_or(0)
}

/// A cell with its column, where it is a source.
fn with_column(cell: Cell, column: u32) -> Cell {
    let column = if cell.kind.is_source() { column } else { 0 };
    Cell { column, ..cell }
}

/// A register with its mask, and with the columns of its cells.
fn coded_register(
    alloc: Global,
    register: &Register,
    columns: &[u32],
) -> Result<Register, AllocError> {
    let mut cells = Vec::new(alloc);
    for (cell, column) in register.cells.iter().zip(columns) {
        cells.push(with_column(*cell, *column))?;
    }
    let mask = mask_of(cells.len());
    Ok(Register { mask, cells })
}

/// All registers with their masks and columns.
fn coded_registers(
    alloc: Global,
    registers: &[Register],
    columns: &[u32],
) -> Result<Vec<Register>, AllocError> {
    let mut coded = Vec::new(alloc);
    let mut rest = columns;
    for register in registers {
        let (own, after) = rest.split_at(register.cells.len().min(rest.len()));
        coded.push(coded_register(alloc, register, own)?)?;
        rest = after;
    }
    Ok(coded)
}

/// The least degree that gives columns, and these.
fn code_of(rt: &(impl Abort + AllocGlobal), grouped: &Grouped) -> Option<Coded> {
    let Ok(cells) = chain_of(rt.alloc(), &grouped.registers) else {
        return None;
    };
    let Ok(count) = u32::try_from(cells.len()) else {
        return None;
    };
    let Ok(segments) = segments_of(rt, &cells, count, &grouped.leaves) else {
        return None;
    };
    match degree(rt.alloc(), &segments, count, count, 1, 20) {
        Ok(coded) => Some(coded),
        Err(_) => None,
    }
}

/// The plan of some registers and sessions at the least degree that gives columns.
fn coded(
    rt: &(impl Abort + AllocGlobal),
    width: u32,
    grouped: &Grouped,
    sessions: Vec<Session>,
) -> Option<Plan> {
    let code = code_of(rt, grouped)?;
    let mask = mask_of(code.degree as usize);
    match coded_registers(rt.alloc(), &grouped.registers, &code.columns) {
        Ok(registers) => Some(Plan {
            width,
            degree: code.degree,
            mask,
            registers,
            sessions,
        }),
        Err(_) => None,
    }
}

/// The cells of a netlist with its cuts.
fn drafted(alloc: Global, netlist: &Netlist, order: &Order, width: u32) -> Option<Draft>
    requires order { IsOrder netlist.now.gates order.now }
    requires width { width ≤ 12 }
    ensures leaves { IfSome result (λ draft. length draft.leaves ≡ length draft.observers) }
    ensures few { IfSome result (λ draft. length draft.sources + length draft.observers ≤ 2 * length (driven netlist.now)) }
{
    let Ok(cut) = cuts(alloc, netlist, order, width) else {
        return None;
    };
    match cells(alloc, netlist, order, &cut) {
        Ok(draft) => Some(draft),
        Err(_) => None,
    }
}

/// The registers of a draft and their sessions.
fn scheduled(alloc: Global, draft: &Draft, most: u32) -> Option<(Grouped, Vec<Session>)>
    requires leaves { length draft.now.leaves ≡ length draft.now.observers }
    requires few { length draft.now.sources + length draft.now.observers < 2 ^ 32 }
    requires least { 1 ≤ most }
    requires most { most ≤ 16 }
{
    let Ok(grouped) = group(alloc, draft, most) else {
        return None;
    };
    let Ok(sessions) = sessions(alloc, &grouped) else {
        return None;
    };
    Some((grouped, sessions))
}

/// The valid plan that is chosen for a netlist.
fn chosen_in(
    rt: &(impl Abort + AllocGlobal),
    netlist: &Netlist,
    order: &Order,
    width: u32,
    most: u32,
) -> Option<Valid>
    requires order { IsOrder netlist.now.gates order.now }
    requires width { width ≤ 12 }
    requires least { 1 ≤ most }
    requires most { most ≤ 16 }
{
    if netlist.nets() > 2_097_152 {
        return None;
    }
    let draft = drafted(rt.alloc(), netlist, order, width)?;
    let (grouped, sessions) = scheduled(rt.alloc(), &draft, most)?;
    let plan = coded(rt, width, &grouped, sessions)?;
    validate(rt.alloc(), netlist, order, plan).ok()
}

/// The same for a text's netlist.
fn chosen(rt: &(impl Abort + AllocGlobal), text: &str, width: u32, most: u32) -> Option<Valid>
    requires width { width ≤ 12 }
    requires least { 1 ≤ most }
    requires most { most ≤ 16 }
{
    let (named, order) = read(rt.alloc(), text)?;
    chosen_in(rt, named.netlist(), &order, width, most)
}

/// A cell's kind, net and column.
type Row = (Kind, u32, u32);

/// The cells of a register are these.
fn has_cells(register: &Register, rows: &[Row]) -> bool {
    register.cells.len() == rows.len()
        && register
            .cells
            .iter()
            .zip(rows)
            .all(|(cell, row)| (cell.kind, cell.net.0, cell.column) == *row)
}

/// The registers of a plan have these cells.
fn has_registers(plan: &Plan, rows: &[&[Row]]) -> bool {
    plan.registers.len() == rows.len()
        && plan
            .registers
            .iter()
            .zip(rows)
            .all(|(register, cells)| has_cells(register, cells))
}

/// These registers compact in the sessions of a plan.
fn has_sessions(plan: &Plan, rows: &[&[u32]]) -> bool {
    plan.sessions.len() == rows.len()
        && plan
            .sessions
            .iter()
            .zip(rows)
            .all(|(session, row)| session.compact.as_slice() == *row)
}

/// The plan that is chosen for a text at width 2 has this degree and its mask, these registers and these sessions.
fn is_chosen(
    rt: &(impl Abort + AllocGlobal),
    text: &str,
    most: u32,
    code: (u32, u32),
    registers: &[&[Row]],
    sessions: &[&[u32]],
) -> bool {
    if most == 0 || most > 16 {
        return false;
    }
    match chosen(rt, text, 2, most) {
        Some(valid) => {
            let plan = valid.plan();
            (plan.degree, plan.mask) == code
                && has_registers(plan, registers)
                && has_sessions(plan, sessions)
        }
        None => false,
    }
}

#[test]
fn a_half_adder_has_its_plan_by_registers_of_eight_and_of_one(rt: HostRuntime) {
    let first = (Kind::Input, 0, 1);
    let second = (Kind::Input, 1, 2);
    let sum = (Kind::Output, 2, 0);
    let carry = (Kind::Output, 3, 0);
    assert!(rt;
        is_chosen(
            &rt,
            HALF,
            8,
            (2, 3),
            &[&[first, second], &[sum, carry]],
            &[&[1]]
        )
    );
    assert!(rt;
        is_chosen(
            &rt,
            HALF,
            1,
            (2, 3),
            &[&[first], &[second], &[sum], &[carry]],
            &[&[2, 3]]
        )
    );
}

#[test]
fn a_flip_flop_that_reads_itself_has_two_cells(rt: HostRuntime) {
    let split = (Kind::Split, 0, 1);
    let watch = (Kind::Watch, 0, 0);
    assert!(rt; is_chosen(&rt, TOGGLE, 8, (1, 1), &[&[split], &[watch]], &[&[1]]));
}

#[test]
fn cells_that_clash_are_parted(rt: HostRuntime) {
    let first = (Kind::State, 0, 1);
    let second = (Kind::State, 1, 1);
    assert!(rt; is_chosen(&rt, SWAP, 8, (1, 1), &[&[first], &[second]], &[&[0], &[1]]));
    let inputs = [(Kind::Input, 0, 1), (Kind::Input, 1, 1)];
    let state = (Kind::State, 2, 2);
    let cut = (Kind::Cut, 3, 2);
    assert!(rt;
        is_chosen(
            &rt,
            LOOP,
            8,
            (2, 3),
            &[&inputs, &[state], &[cut]],
            &[&[1], &[2]]
        )
    );
}

#[test]
fn a_tree_of_parity_is_tested_in_two_sessions(rt: HostRuntime) {
    match chosen(&rt, TREE, 4, 8) {
        Some(valid) => {
            let plan = valid.plan();
            assert!(rt; plan.cells() == 43 && plan.registers.len() == 7);
            assert!(rt; plan.degree == 6 && has_sessions(plan, &[&[4, 6], &[5]]));
        }
        None => panic!(rt; "no plan"),
    }
}
