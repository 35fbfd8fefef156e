//! The cells that a netlist with its cuts needs.

ghost use Rattle.std.specs.Prelude.{◌≡◌, ◌≤◌, ◌<◌, ◌+◌, ◌*◌, ◌++◌, ℕ, List, false, not, length, map, filter, Contains, IfOk, OnOk};
ghost use Rattle.std.specs.List.{AllZip, AllByRecursion};
ghost use Rattle.std.specs.List.Sorted.{IsStrictlyIncreasing};
ghost use Rattle.bb_base.specs.Net.{Gate, driven};
ghost use Rattle.bb_terms.specs.Paths.{AtNet, Behind, is_free};
ghost use Rattle.bb_terms.specs.Support.{AreLeaves, stop_at};
ghost use Rattle.bb_terms.specs.Cuts.{is_stop_with};
ghost use Rattle.bb_terms.specs.declared.kind.Kind.TheVariants.{State, Watch, Cut, Output};
ghost use Rattle.bb_reg.specs.Draft.{AreCells, bare_cell, source_cells, those};
ghost use Rattle.bb_reg.specs.LineTables.{AreNarrow, AreStopsOf, IsLineBehind};

use crate::Draft;
use crate::lines::{flop_lines, gate_lines, self_reading, stops_of};
use crate::registers::copied;
use arrayvec::ArrayVec;
use bb_base::{Flop, NetId, Netlist};
use bb_netlist::Order;
use bb_segment::{Walk, is_stop};
use bb_terms::{Cell, Kind};
use std::alloc::{AllocError, Global};

/// Adds a cell of a kind on each of some nets.
fn add_cells(cells: &mut Vec<Cell>, kind: Kind, nets: &[NetId]) -> Result<(), AllocError>
    ensures { OnOk result (cells.new.items ≡ cells.old.items ++ map (bare_cell kind) nets.now) }
{
    'nets: for net in nets {
        cells.push(Cell {
            kind,
            net: *net,
            column: 0,
        })?;
    }
    Ok(())
}

/// The q's of the flip-flops whose bit is 1.
fn those_qs(alloc: Global, flops: &[Flop], bits: &[bool]) -> Result<Vec<NetId>, AllocError>
    requires { length bits.now ≡ length flops.now }
    ensures { IfOk result (λ nets. nets.items ≡ map (λ f. f.q) (those bits.now flops.now)) }
{
    let mut nets = Vec::new(alloc);
    'flops: for number in 0..flops.len() {
        if bits[number] {
            let flop = &flops[number];
            nets.push(flop.q)?;
        }
    }
    Ok(nets)
}

/// The leaves of the lines whose bit is 1.
fn those_lines(
    alloc: Global,
    lines: &[ArrayVec<NetId, 16>],
    bits: &[bool],
) -> Result<Vec<ArrayVec<NetId, 16>>, AllocError>
    requires { length bits.now ≡ length lines.now }
    ensures { IfOk result (λ own. map (λ l. l.items) own.items ≡ those bits.now (map (λ l. l.items) lines.now)) }
{
    let mut own = Vec::new(alloc);
    'lines: for number in 0..lines.len() {
        if bits[number] {
            own.push(copied(&lines[number])?)?;
        }
    }
    Ok(own)
}

/// The other bits.
fn negated(alloc: Global, bits: &[bool]) -> Result<Vec<bool>, AllocError>
    ensures { IfOk result (λ others. others.items ≡ map not bits.now) }
{
    let mut others = Vec::new(alloc);
    'bits: for bit in bits {
        others.push(!*bit)?;
    }
    Ok(others)
}

/// The nets that are no stops.
fn open_nets(alloc: Global, stops: &[bool], nets: &[NetId]) -> Result<Vec<NetId>, AllocError>
    requires { (net : ℕ) → Contains nets.now net → net < length stops.now }
    ensures { IfOk result (λ own. own.items ≡ filter (λ net. not (stop_at stops.now net)) nets.now) }
{
    let mut own = Vec::new(alloc);
    'nets: for net in nets {
        if !is_stop(stops, *net) {
            own.push(*net)?;
        }
    }
    Ok(own)
}

/// Input cells of all inputs, then Split cells of the self-reading flip-flops.
fn sources_of(alloc: Global, netlist: &Netlist, reading: &[bool]) -> Result<Vec<Cell>, AllocError>
    requires { length reading.now ≡ length netlist.now.flops }
    ensures { IfOk result (λ sources. sources.items ≡ source_cells netlist.now reading.now) }
{
    let split = those_qs(alloc, netlist.flops(), reading)?;
    let mut sources = Vec::new(alloc);
    add_cells(&mut sources, Kind::Input, netlist.inputs())?;
    add_cells(&mut sources, Kind::Split, &split)?;
    Ok(sources)
}

/// State cells of the other flip-flops, Watch cells of the self-reading ones, Cut cells, and Output cells.
fn observers_of(
    alloc: Global,
    flops: &[Flop],
    reading: &[bool],
    others: &[bool],
    cuts: &[NetId],
    outputs: &[NetId],
) -> Result<Vec<Cell>, AllocError>
    requires reading { length reading.now ≡ length flops.now }
    requires others { length others.now ≡ length flops.now }
    ensures { IfOk result (λ observers. observers.items ≡ map (λ f. bare_cell State f.q) (those others.now flops.now) ++ (map (λ f. bare_cell Watch f.q) (those reading.now flops.now) ++ (map (bare_cell Cut) cuts.now ++ map (bare_cell Output) outputs.now))) }
{
    let states = those_qs(alloc, flops, others)?;
    let watched = those_qs(alloc, flops, reading)?;
    let mut observers = Vec::new(alloc);
    add_cells(&mut observers, Kind::State, &states)?;
    add_cells(&mut observers, Kind::Watch, &watched)?;
    add_cells(&mut observers, Kind::Cut, cuts)?;
    add_cells(&mut observers, Kind::Output, outputs)?;
    Ok(observers)
}

/// The leaves of the lines of flip-flops, cuts and outputs.
#[derive(Drop)]
struct Lines {
    flops: Vec<ArrayVec<NetId, 16>>,
    cuts: Vec<ArrayVec<NetId, 16>>,
    outputs: Vec<ArrayVec<NetId, 16>>,
}

/// The leaves of all lines that cells observe.
fn lines_of(
    alloc: Global,
    netlist: &Netlist,
    order: &Order,
    stops: &[bool],
    cuts: &[NetId],
    outputs: &[NetId],
) -> Result<Lines, AllocError>
    requires stops { length stops.now ≡ length (driven netlist.now) }
    requires narrow { AreNarrow netlist.now.gates (stop_at stops.now) }
    requires cuts_within { AllByRecursion (λ net. net < length (driven netlist.now)) cuts.now }
    requires cuts_driven { AllByRecursion (λ net. is_free netlist.now.gates net ≡ false) cuts.now }
    requires outputs_within { AllByRecursion (λ net. net < length (driven netlist.now)) outputs.now }
    requires outputs_driven { AllByRecursion (λ net. is_free netlist.now.gates net ≡ false) outputs.now }
    ensures flops { IfOk result (λ lines. AllZip (λ f leaves. AreLeaves netlist.now.gates (stop_at stops.now) (AtNet f.d) leaves) netlist.now.flops (map (λ l. l.items) lines.flops.items)) }
    ensures cuts { IfOk result (λ lines. AllZip (IsLineBehind netlist.now (stop_at stops.now)) cuts.now (map (λ l. l.items) lines.cuts.items)) }
    ensures outputs { IfOk result (λ lines. AllZip (IsLineBehind netlist.now (stop_at stops.now)) outputs.now (map (λ l. l.items) lines.outputs.items)) }
{
    let mut walk = Walk::new(alloc, netlist)?;
    let flops = flop_lines(alloc, netlist, order, stops, &mut walk)?;
    let cuts = gate_lines(alloc, netlist, order, stops, cuts, &mut walk)?;
    let outputs = gate_lines(alloc, netlist, order, stops, outputs, &mut walk)?;
    Ok(Lines {
        flops,
        cuts,
        outputs,
    })
}

/// The leaves of the observers' lines, in the order of the observers.
fn leaves_of(
    alloc: Global,
    lines: Lines,
    reading: &[bool],
    others: &[bool],
) -> Result<Vec<ArrayVec<NetId, 16>>, AllocError>
    requires reading { length reading.now ≡ length lines.flops.items }
    requires others { length others.now ≡ length lines.flops.items }
    ensures { IfOk result (λ leaves. map (λ l. l.items) leaves.items ≡ those others.now (map (λ l. l.items) lines.flops.items) ++ (those reading.now (map (λ l. l.items) lines.flops.items) ++ (map (λ l. l.items) lines.cuts.items ++ map (λ l. l.items) lines.outputs.items))) }
{
    let Lines {
        flops,
        mut cuts,
        mut outputs,
    } = lines;
    let mut leaves = those_lines(alloc, &flops, others)?;
    let mut watched = those_lines(alloc, &flops, reading)?;
    leaves.append(&mut watched)?;
    leaves.append(&mut cuts)?;
    leaves.append(&mut outputs)?;
    Ok(leaves)
}

/// The draft of these lines.
fn draft_of(
    alloc: Global,
    netlist: &Netlist,
    cuts: &[NetId],
    stops: &[bool],
    outputs: &[NetId],
    lines: Lines,
) -> Result<Draft, AllocError>
    requires stops { AreStopsOf netlist.now cuts.now stops.now }
    requires outputs { outputs.now ≡ filter (λ net. not (stop_at stops.now net)) netlist.now.outputs }
    requires flop_lines { AllZip (λ f leaves. AreLeaves netlist.now.gates (stop_at stops.now) (AtNet f.d) leaves) netlist.now.flops (map (λ l. l.items) lines.flops.items) }
    requires cut_lines { AllZip (IsLineBehind netlist.now (stop_at stops.now)) cuts.now (map (λ l. l.items) lines.cuts.items) }
    requires output_lines { AllZip (IsLineBehind netlist.now (stop_at stops.now)) outputs.now (map (λ l. l.items) lines.outputs.items) }
    ensures { IfOk result (AreCells netlist.now cuts.now) }
{
    let flops = netlist.flops();
    let reading = self_reading(alloc, flops, &lines.flops)?;
    let others = negated(alloc, &reading)?;
    let sources = sources_of(alloc, netlist, &reading)?;
    let observers = observers_of(alloc, flops, &reading, &others, cuts, outputs)?;
    let leaves = leaves_of(alloc, lines, &reading, &others)?;
    Ok(Draft {
        sources,
        observers,
        leaves,
    })
}

/// The cells that a netlist with its cuts needs: Input cells of all inputs and Split cells of the flip-flops whose q is a leaf of their
/// own line; and State cells of the other flip-flops, Watch cells of those with a Split cell, Cut cells, and Output cells of the outputs
/// that gates drive and that are no cuts.
///
/// The cuts are nets that gates drive, and with them no gate has more than 16 leaves behind it. Each observer has an entry of `leaves`.
/// Where the cuts ascend, a net has at most two cells.
pub fn cells(
    alloc: Global,
    netlist: &Netlist,
    order: &Order,
    cuts: &[NetId],
) -> Result<Draft, AllocError>
    requires driven { AllByRecursion (λ net. is_free netlist.now.gates net ≡ false) cuts.now }
    requires narrow { (g : Gate ℕ) (leaves : List ℕ) → Contains netlist.now.gates g → AreLeaves netlist.now.gates (is_stop_with netlist.now.gates cuts.now) (Behind g) leaves → length leaves ≤ 16 }
    ensures cells { IfOk result (AreCells netlist.now cuts.now) }
    ensures leaves { IfOk result (λ draft. length draft.leaves ≡ length draft.observers) }
    ensures few { IsStrictlyIncreasing cuts.now → IfOk result (λ draft. length draft.sources + length draft.observers ≤ 2 * length (driven netlist.now)) }
{
    let stops = stops_of(alloc, netlist, cuts)?;
    let outputs = open_nets(alloc, &stops, netlist.outputs())?;
    let lines = lines_of(alloc, netlist, order, &stops, cuts, &outputs)?;
    draft_of(alloc, netlist, cuts, &stops, &outputs, lines)
}
