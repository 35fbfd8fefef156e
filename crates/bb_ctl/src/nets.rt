//! The gates of the controller and of the registers, in a builder.

ghost use Rattle.std.specs.Prelude.{◌≡◌, ◌<◌, ◌-◌, ◌^◌, ◌∷◌, [], ℕ, OnOk, IfOk, length, map};
ghost use Rattle.std.specs.List.{AllByRecursion, range_with_len};
ghost use Rattle.bb_base.specs.Net.{Netlist, renamed_gate};
ghost use Rattle.bb_base.specs.Building.{with_gates};
ghost use Rattle.bb_terms.specs.OnBits.{shifted};
ghost use Rattle.bb_terms.specs.Plan.{chain};
ghost use Rattle.bb_terms.specs.Valid.{IsValidPlan};
ghost use Rattle.bb_terms.specs.Reads.{qs_from};
ghost use Rattle.bb_terms.specs.Controller.{word_from, word_ahead};
ghost use Rattle.bb_terms.specs.Registers.{control_rows};
ghost use Rattle.bb_ctl.specs.Numbers.{HasNumbers};
ghost use Rattle.bb_terms.specs.Numbering.{net_at, wires_in, HasWire, HasDistinctNets};
ghost use Rattle.bb_ctl.specs.ControlNets.{AreControlNets, next_wires, of_registers};

use crate::cells::chain_qs;
use crate::numbering::{add_rows, net_of, nets_of};
use crate::registers::control_rows;
use bb_base::NetId;
use bb_net::Builder;
use bb_terms::{Plan, Valid, Wire};
use std::alloc::{AllocError, Global};
use std::marker::Model;

/// The nets of the controller and of the registers on which cells and flip-flops stand.
#[derive(Drop)]
pub struct ControlNets {
    /// 1 in a test.
    pub test: NetId,
    /// 1 outside a test.
    pub normal: NetId,
    /// 1 in run cycles.
    pub run: NetId,
    /// 1 in unload cycles.
    pub shift: NetId,
    /// The bits that the complete register takes next.
    pub word: Vec<NetId>,
    /// What the controller's flip-flops take: the complete register's, the phase's, and the sessions'.
    pub next: Vec<NetId>,
    /// For each register, where its cells take their lines.
    pub b: Vec<NetId>,
    /// For each register, where its cells take the cells before them.
    pub n: Vec<NetId>,
    /// For each register, where its cells take their code lines.
    pub e: Vec<NetId>,
    /// What stands before each register's first cell.
    pub first: Vec<NetId>,
    /// The bit of each cell of the chain.
    pub cells: Vec<NetId>,
}

impl Model for ControlNets {
    ghost use Rattle.bb_ctl.specs.ControlNets.{ControlNetsValue};

    ghost Value = { ControlNetsValue };

    ghost view = { λ c. record { test = c.test; normal = c.normal; run = c.run; shift = c.shift; word = c.word.items; next = c.next.items; b = c.b.items; n = c.n.items; e = c.e.items; first = c.first.items; cells = c.cells.items } };
}

/// The symbols of these nets, but for those of the test, of its outside and of the two kinds of cycles.
#[derive(Drop)]
struct ControlWires {
    word: Vec<Wire>,
    next: Vec<Wire>,
    latches: Vec<Wire>,
    takes: Vec<Wire>,
    codes: Vec<Wire>,
    first: Vec<Wire>,
    cells: Vec<Wire>,
}

/// The bits that the complete register takes next.
fn word_wires(alloc: Global, degree: u32) -> Result<Vec<Wire>, AllocError>
    ensures { IfOk result (λ wires. wires.items ≡ shifted Wire.Feed (word_from 0 degree)) }
{
    let mut wires = Vec::new(alloc);
    let mut ahead = Wire::Feed;
    'bits: for i in 0..degree {
        wires.push(ahead)?;
        ahead = Wire::Word(i);
    }
    Ok(wires)
}

/// What the bits of the complete register take.
fn next_bits(alloc: Global, degree: u32) -> Result<Vec<Wire>, AllocError>
    ensures { IfOk result (λ wires. wires.items ≡ map Wire.WordNext (range_with_len 0 degree)) }
{
    (0..degree).map(Wire::WordNext).collect(alloc)
}

/// What these rings take.
fn next_rings(alloc: Global, rings: u32) -> Result<Vec<Wire>, AllocError>
    ensures { IfOk result (λ wires. wires.items ≡ map Wire.RingNext (range_with_len 0 rings)) }
{
    (0..rings).map(Wire::RingNext).collect(alloc)
}

/// What the controller's flip-flops take.
fn next_wires(alloc: Global, plan: &Plan) -> Result<Vec<Wire>, AllocError>
    requires sessions { length plan.now.sessions < 2 ^ 32 - 1 }
    ensures { IfOk result (λ wires. wires.items ≡ next_wires plan.now) }
{
    let rings = next_rings(alloc, plan.sessions.len() as u32 + 1)?;
    let mut wires = next_bits(alloc, plan.degree)?;
    wires.push(Wire::PhaseNext)?;
    wires.extend_from_slice(&rings)?;
    Ok(wires)
}

/// Where the cells of each register take their lines.
fn latches(alloc: Global, registers: u32) -> Result<Vec<Wire>, AllocError>
    ensures { IfOk result (λ wires. wires.items ≡ map Wire.Latches (range_with_len 0 registers)) }
{
    (0..registers).map(Wire::Latches).collect(alloc)
}

/// Where the cells of each register take the cells before them.
fn takes(alloc: Global, registers: u32) -> Result<Vec<Wire>, AllocError>
    ensures { IfOk result (λ wires. wires.items ≡ map Wire.Takes (range_with_len 0 registers)) }
{
    (0..registers).map(Wire::Takes).collect(alloc)
}

/// Where the cells of each register take their code lines.
fn codes(alloc: Global, registers: u32) -> Result<Vec<Wire>, AllocError>
    ensures { IfOk result (λ wires. wires.items ≡ map Wire.Codes (range_with_len 0 registers)) }
{
    (0..registers).map(Wire::Codes).collect(alloc)
}

/// What stands before the first cell of each register.
fn firsts(alloc: Global, registers: u32) -> Result<Vec<Wire>, AllocError>
    ensures { IfOk result (λ wires. wires.items ≡ map Wire.First (range_with_len 0 registers)) }
{
    (0..registers).map(Wire::First).collect(alloc)
}

/// The symbols of a plan's registers and cells, and of what its controller takes.
fn control_wires(alloc: Global, plan: &Plan) -> Result<ControlWires, AllocError>
    requires numbers { HasNumbers plan.now }
    requires sessions { length plan.now.sessions < 2 ^ 32 - 1 }
    ensures word { IfOk result (λ wires. wires.word.items ≡ word_ahead plan.now) }
    ensures next { IfOk result (λ wires. wires.next.items ≡ next_wires plan.now) }
    ensures latches { IfOk result (λ wires. wires.latches.items ≡ of_registers Wire.Latches plan.now) }
    ensures takes { IfOk result (λ wires. wires.takes.items ≡ of_registers Wire.Takes plan.now) }
    ensures codes { IfOk result (λ wires. wires.codes.items ≡ of_registers Wire.Codes plan.now) }
    ensures first { IfOk result (λ wires. wires.first.items ≡ of_registers Wire.First plan.now) }
    ensures cells { IfOk result (λ wires. wires.cells.items ≡ qs_from 0 (chain plan.now)) }
{
    let registers = plan.registers.len() as u32;
    Ok(ControlWires {
        word: word_wires(alloc, plan.degree)?,
        next: next_wires(alloc, plan)?,
        latches: latches(alloc, registers)?,
        takes: takes(alloc, registers)?,
        codes: codes(alloc, registers)?,
        first: firsts(alloc, registers)?,
        cells: chain_qs(alloc, plan)?,
    })
}

/// The nets of these symbols.
fn control_nets(
    alloc: Global,
    builder: &mut Builder,
    kept: &[NetId],
    wires: &ControlWires,
) -> Result<ControlNets, AllocError>
    requires distinct { HasDistinctNets builder.old }
    requires modes { AllByRecursion (HasWire builder.old kept.now) (Wire.Test ∷ Wire.NotTest ∷ Wire.Running ∷ Wire.Shifting ∷ []) }
    requires word { AllByRecursion (HasWire builder.old kept.now) wires.now.word.items }
    requires next { AllByRecursion (HasWire builder.old kept.now) wires.now.next.items }
    requires latches { AllByRecursion (HasWire builder.old kept.now) wires.now.latches.items }
    requires takes { AllByRecursion (HasWire builder.old kept.now) wires.now.takes.items }
    requires codes { AllByRecursion (HasWire builder.old kept.now) wires.now.codes.items }
    requires first { AllByRecursion (HasWire builder.old kept.now) wires.now.first.items }
    requires cells { AllByRecursion (HasWire builder.old kept.now) wires.now.cells.items }
    ensures test { IfOk result (λ nets. nets.test ≡ net_at builder.old kept.now Wire.Test) }
    ensures normal { IfOk result (λ nets. nets.normal ≡ net_at builder.old kept.now Wire.NotTest) }
    ensures run { IfOk result (λ nets. nets.run ≡ net_at builder.old kept.now Wire.Running) }
    ensures shift { IfOk result (λ nets. nets.shift ≡ net_at builder.old kept.now Wire.Shifting) }
    ensures word { IfOk result (λ nets. nets.word ≡ map (net_at builder.old kept.now) wires.now.word.items) }
    ensures next { IfOk result (λ nets. nets.next ≡ map (net_at builder.old kept.now) wires.now.next.items) }
    ensures b { IfOk result (λ nets. nets.b ≡ map (net_at builder.old kept.now) wires.now.latches.items) }
    ensures n { IfOk result (λ nets. nets.n ≡ map (net_at builder.old kept.now) wires.now.takes.items) }
    ensures e { IfOk result (λ nets. nets.e ≡ map (net_at builder.old kept.now) wires.now.codes.items) }
    ensures first { IfOk result (λ nets. nets.first ≡ map (net_at builder.old kept.now) wires.now.first.items) }
    ensures cells { IfOk result (λ nets. nets.cells ≡ map (net_at builder.old kept.now) wires.now.cells.items) }
    ensures same { builder.new ≡ builder.old }
{
    Ok(ControlNets {
        test: net_of(alloc, builder, kept, Wire::Test)?,
        normal: net_of(alloc, builder, kept, Wire::NotTest)?,
        run: net_of(alloc, builder, kept, Wire::Running)?,
        shift: net_of(alloc, builder, kept, Wire::Shifting)?,
        word: nets_of(alloc, builder, kept, &wires.word)?,
        next: nets_of(alloc, builder, kept, &wires.next)?,
        b: nets_of(alloc, builder, kept, &wires.latches)?,
        n: nets_of(alloc, builder, kept, &wires.takes)?,
        e: nets_of(alloc, builder, kept, &wires.codes)?,
        first: nets_of(alloc, builder, kept, &wires.first)?,
        cells: nets_of(alloc, builder, kept, &wires.cells)?,
    })
}

/// Adds the gates of the controller and of the registers, and answers the nets on which cells and flip-flops stand.
///
/// `kept` has for each net of the original its net in the builder. After an error nothing is known of the builder.
pub fn lines(
    alloc: Global,
    valid: &Valid,
    kept: &[NetId],
    builder: &mut Builder,
) -> Result<ControlNets, AllocError>
    requires valid { (a : Netlist ℕ) × IsValidPlan a valid.now.plan }
    requires distinct { HasDistinctNets builder.old }
    requires stands { AllByRecursion (HasWire builder.old kept.now) (wires_in (control_rows valid.now.plan)) }
    requires cells { AllByRecursion (HasWire builder.old kept.now) (qs_from 0 (chain valid.now.plan)) }
    requires few { length builder.old.netlist.gates < 2 ^ 31 }
    ensures added { OnOk result (builder.new ≡ with_gates builder.old (map (renamed_gate (net_at builder.old kept.now)) (control_rows valid.now.plan))) }
    ensures nets { IfOk result (AreControlNets builder.old kept.now valid.now.plan) }
{
    let plan = valid.plan();
    let wires = control_wires(alloc, plan)?;
    let nets = control_nets(alloc, builder, kept, &wires)?;
    let rows = control_rows(alloc, plan)?;
    add_rows(alloc, builder, kept, &rows)?;
    Ok(nets)
}
